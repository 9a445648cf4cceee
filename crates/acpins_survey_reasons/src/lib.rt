//! Why something of a survey is lost, refused or noticed, in words: what its texts and its JSON share (ACPI 6.5, 5.3 and
//! 20.2.5). `specs/Numbered.antt` has what stands at the number of an entry.
#![tactic(auto)]

mod reasons;

pub use reasons::{
    lost_reason_name, note_name, noted_name, problem_name, problem_paths, put_body_reason,
    put_named, put_note_reason, put_paths, put_problem_reason, put_refusal, refused_paths,
    table_reason_name,
};
