//! Reserved names: the arguments and the values that the specification has for them (ACPI 6.5, 5.6.8).
//!
//! ```text
//! rule_of(*b"_SCP")      // 1 or 3 arguments, no value
//! ```
#![tactic(auto)]

use acpi_tree::Term;

/// The type of a value (ACPI 6.5, 19.3.5).
#[derive(Debug, Clone, Copy, PartialEq, Eq)]
pub enum DataType {
    /// A buffer.
    Buffer,
    /// A number.
    Number,
    /// A package.
    Package,
    /// A string.
    Text,
}

/// The value that is due of a reserved name (ACPI 6.5, 5.6.8).
#[derive(Debug, Clone, Copy, PartialEq, Eq)]
pub enum Due {
    /// None: it is a method.
    Nothing,
    /// One of any type.
    Any,
    /// A buffer.
    Buffer,
    /// A buffer or a number.
    BufferOrNumber,
    /// A buffer, a number or a string.
    BufferNumberOrText,
    /// A buffer or a string.
    BufferOrText,
    /// A number.
    Number,
    /// A number or a package.
    NumberOrPackage,
    /// A number, a package or a string.
    NumberPackageOrText,
    /// A number or a string.
    NumberOrText,
    /// A package.
    Package,
    /// A string.
    Text,
}

/// What the specification has for a reserved name.
#[derive(Debug, Clone, Copy)]
pub struct Rule {
    /// The numbers of arguments that will do.
    pub arguments: &'static [u8],
    /// The value.
    pub due: Due,
}

// Numbers of arguments, a value, and the names that have both. They are those of ACPI 6.5, 5.6.8 (table of predefined names),
// with those of its chapters 6 to 11, 16 and 18; `_WDG` and `_WED` are those of the management interface PNP0C14.
static RESERVED: [(&[u8], Due, &str); 41] = [
    (
        &[0],
        Due::Number,
        "_AC0 _AC1 _AC2 _AC3 _AC4 _AC5 _AC6 _AC7 _AC8 _AC9 _ADR _ALC _ALI _ALP",
    ),
    (
        &[0],
        Due::Number,
        "_ALT _BBN _BDN _BQC _CBA _CCA _CDM _CR3 _CRT _DCS _DGS _EC_ _GAI _GCP",
    ),
    (
        &[0],
        Due::Number,
        "_GHL _GLK _GPD _GPE _GSB _HOT _HRV _IFT _LID _MTL _NTT _PDL _PMM _PPC",
    ),
    (
        &[0],
        Due::Number,
        "_PPE _PSC _PSR _PSV _PXM _REV _RMV _RTV _S0W _S1D _S1W _S2D _S2W _S3D",
    ),
    (
        &[0],
        Due::Number,
        "_S3W _S4D _S4W _SBS _SEG _SRV _STA _SUN _SWS _TC1 _TC2 _TDL _TFP _TMP",
    ),
    (
        &[0],
        Due::Number,
        "_TPC _TSP _TST _TZP _UPD _UPP _VPO _WPC _WPP",
    ),
    (
        &[1],
        Due::Number,
        "_BCT _BMA _BMS _BTM _CWS _DCK _GWS _PAI _SHL _SPD _SRT _TIP _TIV",
    ),
    (&[2], Due::Number, "_PTP _STP _STV"),
    (&[3], Due::Number, "_ERR _LSW"),
    (&[4], Due::Number, "_MSM"),
    (
        &[0],
        Due::Buffer,
        "_AEI _CRS _DMA _FDE _FIT _GRT _GTF _GTM _HMA _MAT _NBS _NCH _NIC _NIG",
    ),
    (&[0], Due::Buffer, "_PRS _SLI _WDG"),
    (&[1], Due::Buffer, "_NIH"),
    (&[2], Due::Buffer, "_ROM"),
    (&[4], Due::Buffer, "_OSC"),
    (
        &[0],
        Due::Package,
        "_AL0 _AL1 _AL2 _AL3 _AL4 _AL5 _AL6 _AL7 _AL8 _AL9 _ALR _ART _BCL _BIF",
    ),
    (
        &[0],
        Due::Package,
        "_BIX _BMD _BST _CLS _CPC _CSD _CST _DEP _DLM _DOD _DSD _EDL _FDI _FIF",
    ),
    (
        &[0],
        Due::Package,
        "_FIX _FPS _FST _HPP _HPX _LPD _LPI _LSI _MBM _MLS _PCL _PCT _PIF _PLD",
    ),
    (
        &[0],
        Due::Package,
        "_PMC _PMD _PR0 _PR1 _PR2 _PR3 _PRE _PRL _PRR _PRT _PRW _PSD _PSL _PSS",
    ),
    (
        &[0],
        Due::Package,
        "_PTC _PUR _RDI _S0_ _S1_ _S2_ _S3_ _S4_ _S5_ _SBA _SBI _TRT _TSD _TSS",
    ),
    (&[0], Due::Package, "_TZD _UPC"),
    (&[2], Due::Package, "_LSR"),
    (&[3], Due::Package, "_SBR"),
    (&[4], Due::Package, "_SBT"),
    (&[5], Due::Package, "_SBW"),
    (&[0], Due::Text, "_DDN _EJD _OS_ _SUB"),
    (&[1], Due::BufferOrNumber, "_DDC"),
    (&[0], Due::BufferOrText, "_STR"),
    (&[0], Due::NumberOrText, "_HID _UID"),
    (&[1], Due::NumberOrPackage, "_WAK"),
    (&[1], Due::BufferNumberOrText, "_WED"),
    (&[0], Due::NumberPackageOrText, "_CID"),
    (&[0], Due::Any, "_TSN _TZM"),
    (&[4], Due::Any, "_DSM"),
    (
        &[0],
        Due::Nothing,
        "_DIS _INI _IRC _OFF _ON_ _PS0 _PS1 _PS2 _PS3 _RST",
    ),
    (
        &[1],
        Due::Nothing,
        "_BCM _BFS _BMC _BTH _BTP _DOS _DSS _DTI _EJ0 _EJ1 _EJ2 _EJ3 _EJ4 _EVT",
    ),
    (
        &[1],
        Due::Nothing,
        "_FDM _FSL _GTS _LCK _MSG _PDC _PIC _PSE _PSW _PTS _SDD _SRS _SST _TPT",
    ),
    (&[1], Due::Nothing, "_TTS"),
    (&[1, 3], Due::Nothing, "_SCP"),
    (&[2], Due::Nothing, "_REG"),
    (&[3], Due::Nothing, "_BLT _DSW _OST _STM"),
];

// The length of a name with the blank behind it.
const STEP: usize = 5;

fn has_name(names: &str, name: [u8; 4]) -> bool {
    names
        .as_bytes()
        .chunks(STEP)
        .any(|other| other.starts_with(&name))
}

// What the first row that has the name says of it.
fn rule_in(rows: &[(&'static [u8], Due, &'static str)], name: [u8; 4]) -> Option<Rule> {
    for row in rows {
        if has_name(row.2, name) {
            return Some(Rule {
                arguments: row.0,
                due: row.1,
            });
        }
    }
    None
}

/// What the specification has for a reserved name; none of any other name.
pub fn rule_of(name: [u8; 4]) -> Option<Rule> {
    if name[0] == b'_' {
        rule_in(&RESERVED, name)
    } else {
        None
    }
}

/// Whether a reserved name must give a value; none of any other name must.
pub fn gives_value(name: [u8; 4]) -> bool {
    rule_of(name).is_some_and(|r| r.due != Due::Nothing)
}

/// The type of a data object.
pub fn type_of(term: &Term) -> Option<DataType> {
    match term {
        Term::Int(_) => Some(DataType::Number),
        Term::Str(_) => Some(DataType::Text),
        Term::Buffer(_, _) => Some(DataType::Buffer),
        Term::Package(_, _) | Term::VarPackage(_, _) => Some(DataType::Package),
        _ => None,
    }
}

impl DataType {
    /// The words for a value of the type.
    pub fn text(self) -> &'static str {
        match self {
            DataType::Buffer => "a buffer",
            DataType::Number => "a number",
            DataType::Package => "a package",
            DataType::Text => "a string",
        }
    }
}

impl Due {
    /// The words for the values that are due; none where any will do or none is due.
    pub fn text(self) -> &'static str {
        match self {
            Due::Nothing | Due::Any => "",
            Due::Buffer => "a buffer",
            Due::BufferOrNumber => "a buffer or a number",
            Due::BufferNumberOrText => "a buffer or a number or a string",
            Due::BufferOrText => "a buffer or a string",
            Due::Number => "a number",
            Due::NumberOrPackage => "a number or a package",
            Due::NumberPackageOrText => "a number or a package or a string",
            Due::NumberOrText => "a number or a string",
            Due::Package => "a package",
            Due::Text => "a string",
        }
    }

    fn takes_number(self) -> bool {
        matches!(
            self,
            Due::Number
                | Due::NumberOrPackage
                | Due::NumberPackageOrText
                | Due::NumberOrText
                | Due::BufferOrNumber
                | Due::BufferNumberOrText
        )
    }

    fn takes_text(self) -> bool {
        matches!(
            self,
            Due::Text
                | Due::NumberOrText
                | Due::NumberPackageOrText
                | Due::BufferOrText
                | Due::BufferNumberOrText
        )
    }

    fn takes_buffer(self) -> bool {
        matches!(
            self,
            Due::Buffer | Due::BufferOrNumber | Due::BufferOrText | Due::BufferNumberOrText
        )
    }

    fn takes_package(self) -> bool {
        matches!(
            self,
            Due::Package | Due::NumberOrPackage | Due::NumberPackageOrText
        )
    }

    /// Whether a value of the type will do. None is due or any will do: each does.
    pub fn takes(self, kind: DataType) -> bool {
        match self {
            Due::Nothing | Due::Any => true,
            _ => match kind {
                DataType::Number => self.takes_number(),
                DataType::Text => self.takes_text(),
                DataType::Buffer => self.takes_buffer(),
                DataType::Package => self.takes_package(),
            },
        }
    }
}
