//! `zmu` over a directory of the file system.
use crate::script::play_scene;
use crate::watched::Watched;
use axe_folder::{DirFolder, Folder};
use std::fs;
use std::test::Fail;

const PRODUCT: &str = r"
+ A packed 2 2 2 C0 40
+ B packed 2 2 2 80 C0
$ zmu A B OUT -> 0
= OUT packed 2 2 2 40 C0
";

#[test]
fn products_are_put_into_a_directory(rt: HostRuntime) -> Result<(), Fail> {
    let place = "axe_command_tests_products";
    fs::create_dir(&rt, place)?;
    let mut folder = Watched::new(rt.alloc(), DirFolder::new(rt.clone()?, place)?);
    play_scene(&rt, PRODUCT, &mut folder);
    for name in ["A", "B", "OUT"] {
        folder.remove(name)?;
    }
    // It is refused where another file is left.
    fs::remove_dir(&rt, place)?;
    Ok(())
}
