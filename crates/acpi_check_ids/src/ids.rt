//! Ids and levels.

ghost use Rattle.std.specs.Prelude.{◌≡◌, Some};
ghost use Rattle.acpi_check_ids.specs.Ids.{id_among, id_of, id_text, level_of, level_text};

/// How bad a finding is.
#[derive(Clone, Copy, Debug, PartialEq, Eq, PartialOrd, Ord)]
pub enum Level {
    /// An interpreter refuses or aborts there when it comes there.
    Error,
    /// Probably a mistake.
    Warning,
    /// Worth a look.
    Remark,
}

impl Level {
    /// The word that is printed for it.
    pub fn text(self) -> &'static str
        ensures { result.now ≡ level_text self }
    {
        match self {
            Level::Error => "error",
            Level::Warning => "warning",
            Level::Remark => "remark",
        }
    }
}

/// What a finding is about, in the order in which findings are printed.
#[derive(Clone, Copy, Debug, PartialEq, Eq, PartialOrd, Ord)]
pub enum CheckId {
    /// `problem`: what is lost or refused (ACPI 6.5, 5.3 and 20.2).
    Problem,
    /// `no-link`: a name of a field form, a Create field or an Alias is declared nowhere (20.2.5.1 and 20.2.5.2).
    NoLink,
    /// `no-name`: a name in a method is declared nowhere (5.3).
    NoName,
    /// `no-value`: the value of a method without a Return is read (20.2.5.3).
    NoValue,
    /// `no-element`: a name in a package is declared nowhere (20.2.5.4).
    NoElement,
    /// `not-serialized`: a method that isn't serialized declares objects (20.2.5.2).
    NotSerialized,
    /// `twice`: a method declares an object again while the first one is there (5.3).
    Twice,
    /// `held`: a method ends with a Mutex acquired (20.2.5.4).
    Held,
    /// `arguments`: a reserved name with other arguments or another type than it has (5.6.8).
    Arguments,
    /// `same-id`: two devices with one `_HID` and one `_UID` (6.1.5 and 6.1.12).
    SameId,
    /// `routing`: a fault of a `_PRT` (6.2.13).
    Routing,
    /// `resource`: a fault of a resource template (6.4).
    Resource,
    /// `past`: a field behind the end of its region or buffer (20.2.5.2).
    Past,
    /// `properties`: a fault of the device properties in a `_DSD` (6.2.5).
    Properties,
    /// `event`: an event method that is never called (5.6.4.1).
    Event,
    /// `some-value`: a method whose value is read gives one on some ways only (20.2.5.3).
    SomeValue,
    /// `id`: a `_HID` or `_CID` of another form than ids have (6.1.2 and 6.1.5).
    Id,
    /// `same-address`: two devices with one `_ADR` in a scope (6.1.1).
    SameAddress,
    /// `lacks`: a device or zone without an object that its class needs (7.2, 10 and 11).
    Lacks,
    /// `polls`: a loop that waits for the hardware without a limit (20.2.5.3).
    Polls,
    /// `never`: a comparison with a value that the other side never has (20.2.5.4).
    Never,
    /// `guarded-port`: a field at ports that systems keep for themselves (5.5.2.4).
    GuardedPort,
    /// `system`: a test for the system that runs the tables (5.7.2 and 5.7.4).
    System,
}

// The first of these ids that is typed so.
fn id_among(ids: &[CheckId], text: &str) -> Option<CheckId>
    ensures { result ≡ id_among ids.now text.now }
{
    for id in ids {
        if id.text() == text {
            return Some(*id);
        }
    }
    None
}

impl CheckId {
    /// All ids, in order.
    pub const ALL: [CheckId; 23] = [
        CheckId::Problem,
        CheckId::NoLink,
        CheckId::NoName,
        CheckId::NoValue,
        CheckId::NoElement,
        CheckId::NotSerialized,
        CheckId::Twice,
        CheckId::Held,
        CheckId::Arguments,
        CheckId::SameId,
        CheckId::Routing,
        CheckId::Resource,
        CheckId::Past,
        CheckId::Properties,
        CheckId::Event,
        CheckId::SomeValue,
        CheckId::Id,
        CheckId::SameAddress,
        CheckId::Lacks,
        CheckId::Polls,
        CheckId::Never,
        CheckId::GuardedPort,
        CheckId::System,
    ];

    /// The id as it is printed and typed.
    pub fn text(self) -> &'static str
        ensures is { result.now ≡ id_text self }
        ensures alone { id_of result.now ≡ Some self }
    {
        match self {
            CheckId::Problem => "problem",
            CheckId::NoLink => "no-link",
            CheckId::NoName => "no-name",
            CheckId::NoValue => "no-value",
            CheckId::NoElement => "no-element",
            CheckId::NotSerialized => "not-serialized",
            CheckId::Twice => "twice",
            CheckId::Held => "held",
            CheckId::Arguments => "arguments",
            CheckId::SameId => "same-id",
            CheckId::Routing => "routing",
            CheckId::Resource => "resource",
            CheckId::Past => "past",
            CheckId::Properties => "properties",
            CheckId::Event => "event",
            CheckId::SomeValue => "some-value",
            CheckId::Id => "id",
            CheckId::SameAddress => "same-address",
            CheckId::Lacks => "lacks",
            CheckId::Polls => "polls",
            CheckId::Never => "never",
            CheckId::GuardedPort => "guarded-port",
            CheckId::System => "system",
        }
    }

    /// The level of its findings.
    pub fn level(self) -> Level
        ensures { result ≡ level_of self }
    {
        match self {
            CheckId::Problem | CheckId::NoLink | CheckId::NoName => Level::Error,
            CheckId::SomeValue
            | CheckId::Id
            | CheckId::SameAddress
            | CheckId::Lacks
            | CheckId::Polls
            | CheckId::Never
            | CheckId::GuardedPort
            | CheckId::System => Level::Remark,
            _ => Level::Warning,
        }
    }

    /// The id that is typed so.
    pub fn of(text: &str) -> Option<CheckId>
        ensures { result ≡ id_of text.now }
    {
        id_among(&CheckId::ALL, text)
    }
}
