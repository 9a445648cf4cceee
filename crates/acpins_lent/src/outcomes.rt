//! How many of each a survey has, for C.

ghost use Rattle.std.specs.Prelude.{◌≡◌};
ghost use Rattle.acpins_lent.specs.Lent.{no_survey_outcome};

/// How many of each a call over a survey has. What a status or a call doesn't speak of is 0.
#[repr(C)]
#[derive(Clone, Copy, Debug)]
pub struct SurveyOutcome {
    /// How many tables there are.
    pub tables: u64,
    /// How many entries: those of one path count each.
    pub entries: u64,
    /// How many literals the conditions of entries have; equal beginnings of conditions count once.
    pub literals: u64,
    /// How many targets of links.
    pub targets: u64,
    /// How many parts of constant data.
    pub parts: u64,
    /// How many problems: what is lost or refused.
    pub problems: u64,
    /// How many notes.
    pub notes: u64,
    /// How many bytes of text.
    pub text: u64,
    /// How many bytes of strings, buffers and names, or of all tables that are written.
    pub bytes: u64,
    /// 1 where the program would end with status 3, and 0 else.
    pub is_faulty: u64,
}

impl SurveyOutcome {
    /// Nothing is said.
    pub fn nothing() -> SurveyOutcome
        ensures { result ≡ no_survey_outcome }
    {
        SurveyOutcome {
            tables: 0,
            entries: 0,
            literals: 0,
            targets: 0,
            parts: 0,
            problems: 0,
            notes: 0,
            text: 0,
            bytes: 0,
            is_faulty: 0,
        }
    }
}
