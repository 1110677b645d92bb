// What a Hermes program is: paths and facts, types, values and cells, statements and the statement table,
// control paths and refusals. The definitions stand in specs/; the functions here are laws about them.
#![tactic(auto)]

pub mod changes;
pub mod examples;
pub mod facts;
pub mod flows;
pub mod refusals;
pub mod table;
pub mod texts;
pub mod typed_examples;
pub mod typed_programs;
pub mod types;
pub mod untyped_texts;
pub mod values;
