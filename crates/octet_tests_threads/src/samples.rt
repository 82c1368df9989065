//! Scripts of tests, made from their texts.
use octet_model::{MAX_SCRIPT_FILE, Script};
use octet_script::parse;
use std::alloc::Global;
use std::test::Fail;

/// The script that the text spells.
pub(crate) fn script(alloc: Global, text: &[u8]) -> Result<Script, Fail> {
    if text.len() > MAX_SCRIPT_FILE as usize {
        return Err(Fail::new("a script of a test is too long"));
    }
    Ok(parse(alloc, text)?)
}
