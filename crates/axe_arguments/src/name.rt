//! Names of files.
ghost use Rattle.std.specs.Prelude.{◌≡◌, ◌↔◌, true, false, IfOk};
ghost use Rattle.axe_arguments.specs.Names.{is_sign, is_name_byte, is_name};

use crate::MAX_NAME_BYTES;
use std::alloc::{AllocError, Global};
use std::marker::Model;
use thiserror::Error;

/// Why a text was not taken as a name.
#[derive(Debug, Clone, Copy, PartialEq, Eq, Error)]
pub enum NameFault {
    /// The text breaks the rule of names.
    #[error("bad file name")]
    BadName,
    /// There was no memory for the name.
    #[error("Memory")]
    Memory,
}

impl From<AllocError> for NameFault {
    ghost use Rattle.std.specs.Prelude.{◌≡◌};
    ghost use Rattle.axe_arguments.specs.declared.name.NameFault.TheVariants.{Memory};

    ghost from_gives = { λ _ fault. fault ≡ Memory };

    fn from(_error: AllocError) -> NameFault {
        NameFault::Memory
    }
}

/// The name of a file in the working directory.
///
/// It has 1 to [`MAX_NAME_BYTES`] bytes, each an ASCII letter or digit or one of `.`, `_`, `-` and `+`, and it begins
/// with a letter or a digit. So a name is never a path, and never looks like an option. Contracts see a name as its
/// bytes.
#[derive(Debug, Drop)]
pub struct Name {
    text: String,
}

impl Model for Name {
    ghost use Rattle.std.specs.Prelude.{◌≡◌, ℕ, List, true, string_bytes};
    ghost use Rattle.axe_arguments.specs.Names.{is_name};

    ghost Value = { List ℕ };

    ghost view = { λ name. string_bytes name.text };

    ghost invariant = { λ name. is_name (string_bytes name.text) ≡ true };
}

impl Name {
    /// The name with this text. Where the text breaks the rule of names the answer is BadName, whatever the memory.
    pub fn new(alloc: Global, text: &str) -> Result<Name, NameFault>
        ensures ok { IfOk result (λ name. name ≡ text.now) }
        ensures rule { IfOk result (λ name. is_name name ≡ true) }
        ensures bad_name { (result ≡ Err NameFault.BadName) ↔ (is_name text.now ≡ false) }
    {
        if !is_name(text) {
            return Err(NameFault::BadName);
        }
        Ok(Name {
            text: String::from_str(alloc, text)?,
        })
    }

    /// The text of the name.
    pub fn as_str(&self) -> &str
        ensures text { result.now ≡ self.now }
        ensures rule { is_name self.now ≡ true }
    {
        self.text.as_str()
    }

    /// The same name once more.
    pub fn copy(&self, alloc: Global) -> Result<Name, AllocError>
        ensures { IfOk result (λ copy. copy ≡ self.now) }
    {
        Ok(Name {
            text: String::from_str(alloc, &self.text)?,
        })
    }
}

/// Whether the text keeps the rule of names.
fn is_name(text: &str) -> bool
    ensures { result ≡ is_name text.now }
{
    let bytes = text.as_bytes();
    matches!(bytes.len(), 1..=MAX_NAME_BYTES)
        && !is_sign(bytes[0])
        && bytes.iter().all(|&byte| is_name_byte(byte))
}

/// Whether a name may contain the byte.
fn is_name_byte(byte: u8) -> bool
    ensures { result ≡ is_name_byte byte }
{
    byte.is_ascii_alphanumeric() || is_sign(byte)
}

/// Whether the byte is a sign, which a name may contain but not begin with.
fn is_sign(byte: u8) -> bool
    ensures { result ≡ is_sign byte }
{
    matches!(byte, b'.' | b'_' | b'-' | b'+')
}
