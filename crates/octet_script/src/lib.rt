//! Scripts as texts: from a text to the script that it spells, and to the canonical text back.
#![tactic(auto)]

mod builder;
mod cause;
mod keyword;
mod laws;
mod line;
mod numbering;
mod objects;
mod parser;
mod printer;
mod rules;
mod words;

pub use cause::{ScriptCause, ScriptFault};
pub use laws::{
    a_text_spells_one_script, broken_rule_is_refused, broken_text_is_refused,
    canonical_text_spells_its_script, parsing_is_the_grammar,
};
pub use line::number_of;
pub use numbering::command_lines;
pub use parser::parse;
pub use printer::print;
