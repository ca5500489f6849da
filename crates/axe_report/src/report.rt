//! Reports as values.

ghost use Rattle.std.specs.Prelude.{◌≡◌, string_bytes, option_map, option_copied};
ghost use Rattle.axe_report.specs.Reports.{WitnessValue, FactorValue, ReportValue, IsReport};
ghost use Rattle.axe_report.specs.Reports.{version_number, word_of, poly_of};

use axe_field::Field;
use std::marker::Model;

/// The version of a report.
#[derive(Debug, Clone, Copy, PartialEq, Eq)]
pub enum Version {
    /// Nothing is told of how the factors were seen to be irreducible.
    One,
    /// Each factor has its witness.
    Two,
}

impl Version {
    /// Its number, as the first line of a report names it.
    pub(crate) fn number(self) -> u8
        ensures { result ≡ version_number self }
    {
        match self {
            Version::One => 1,
            Version::Two => 2,
        }
    }
}

/// What a report is of, after its version: the field of the module, its dimension, the number of its generators, the
/// seed of the words, and the greatest number of a word that was to be tried.
#[derive(Debug, Clone, Copy, PartialEq, Eq)]
pub struct ReportHeader {
    pub version: Version,
    pub field: Field,
    pub dim: usize,
    pub gens: usize,
    pub seed: u64,
    pub words: u32,
}

/// How a constituent was seen to be irreducible: the number of the word that decided, and the digits of the polynomial
/// that decided at the word's value, the constant one first, where one did.
#[derive(Debug, Drop)]
pub struct FactorWitness {
    word: u32,
    poly: Option<Vec<u8>>,
}

impl Model for FactorWitness {
    ghost use Rattle.std.specs.Prelude.{option_map};
    ghost use Rattle.axe_report.specs.Reports.{WitnessValue};

    ghost Value = { WitnessValue };

    ghost view = { λ witness. record {
      word = witness.word;
      poly = option_map (λ digits. digits.items) witness.poly;
    } };
}

impl FactorWitness {
    /// The witness with the word of this number, and this polynomial, where one decided.
    pub fn new(word: u32, poly: Option<Vec<u8>>) -> FactorWitness
        ensures { result ≡ record { word = word; poly = option_map (λ digits. digits.items) poly } }
    {
        FactorWitness { word, poly }
    }

    /// The number of the word.
    fn word(&self) -> u32
        ensures { result ≡ self.now.word }
    {
        self.word
    }

    /// The digits of the polynomial.
    fn poly(&self) -> Option<&[u8]>
        ensures { option_copied result ≡ self.now.poly }
    {
        match &self.poly {
            None => None,
            Some(digits) => Some(digits.as_slice()),
        }
    }
}

/// A constituent: its name, its dimension, how often it stands in the series, and its witness, where one is told.
#[derive(Debug, Drop)]
pub struct ReportFactor {
    name: String,
    dim: usize,
    multiplicity: usize,
    witness: Option<FactorWitness>,
}

impl Model for ReportFactor {
    ghost use Rattle.std.specs.Prelude.{string_bytes};
    ghost use Rattle.axe_report.specs.Reports.{FactorValue};

    ghost Value = { FactorValue };

    ghost view = { λ factor. record {
      name = string_bytes factor.name;
      dim = factor.dim;
      multiplicity = factor.multiplicity;
      witness = factor.witness;
    } };
}

impl ReportFactor {
    /// The constituent with this name, dimension, multiplicity and witness.
    pub fn new(
        name: String,
        dim: usize,
        multiplicity: usize,
        witness: Option<FactorWitness>,
    ) -> ReportFactor
        ensures { result ≡
            record { name = string_bytes name; dim = dim; multiplicity = multiplicity; witness = witness } }
    {
        ReportFactor {
            name,
            dim,
            multiplicity,
            witness,
        }
    }

    /// Its name, as `2a`.
    pub fn name(&self) -> &str
        ensures { result.now ≡ self.now.name }
    {
        self.name.as_str()
    }

    /// Its dimension.
    pub fn dim(&self) -> usize
        ensures { result ≡ self.now.dim }
    {
        self.dim
    }

    /// How often it stands in the series.
    pub fn multiplicity(&self) -> usize
        ensures { result ≡ self.now.multiplicity }
    {
        self.multiplicity
    }

    /// The number of the word by which it was seen to be irreducible, where that is told.
    pub fn word(&self) -> Option<u32>
        ensures { result ≡ word_of self.now.witness }
    {
        match &self.witness {
            None => None,
            Some(witness) => Some(witness.word()),
        }
    }

    /// The digits of the polynomial that decided at that word's value, the constant one first, where one did.
    pub fn poly(&self) -> Option<&[u8]>
        ensures { option_copied result ≡ poly_of self.now.witness }
    {
        match &self.witness {
            None => None,
            Some(witness) => witness.poly(),
        }
    }
}

/// The report of a composition series.
///
/// Its factors are named by the rule, in order of first appearance in the series, from the bottom; each stands there so
/// often as its multiplicity says, and the dimensions make up that of the module. In version 2 each has its witness: a
/// word that the header names, and, where there is one, a polynomial over its field.
#[derive(Debug, Drop)]
pub struct Report {
    header: ReportHeader,
    factors: Vec<ReportFactor>,
    series: Vec<u16>,
}

impl Model for Report {
    ghost use Rattle.axe_report.specs.Reports.{ReportValue, IsReport};

    ghost Value = { ReportValue };

    ghost view = { λ report. record {
      header = report.header;
      factors = report.factors.items;
      series = report.series.items;
    } };

    ghost invariant = { λ report. IsReport (record {
      header = report.header;
      factors = report.factors.items;
      series = report.series.items;
    }) };
}

impl Report {
    /// The report with these fields: the factors, and for each constituent of the series its place among them, from 0.
    pub fn new(header: ReportHeader, factors: Vec<ReportFactor>, series: Vec<u16>) -> Report
        requires { IsReport (record { header = header; factors = factors.items; series = series.items }) }
        ensures { result ≡ record { header = header; factors = factors.items; series = series.items } }
    {
        Report {
            header,
            factors,
            series,
        }
    }

    /// Its version.
    pub fn version(&self) -> Version
        ensures value { result ≡ self.now.header.version }
        ensures relations { IsReport self.now }
    {
        let ReportHeader { version, .. } = self.header;
        version
    }

    /// What the report is of.
    pub fn header(&self) -> ReportHeader
        ensures value { result ≡ self.now.header }
        ensures relations { IsReport self.now }
    {
        self.header
    }

    /// The constituents, in order of first appearance.
    pub fn factors(&self) -> &[ReportFactor]
        ensures value { result.now ≡ self.now.factors }
        ensures relations { IsReport self.now }
    {
        &self.factors
    }

    /// The places of the constituents of the series among the factors, from the bottom.
    pub fn series(&self) -> &[u16]
        ensures value { result.now ≡ self.now.series }
        ensures relations { IsReport self.now }
    {
        &self.series
    }
}
