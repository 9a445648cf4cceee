//! What crosses to C.

/// An entry: what one term may declare, and under which condition. Its line in the text begins with its path.
#[repr(C)]
#[derive(Clone, Copy, Debug)]
pub struct EntryRecord {
    /// The kind, 0 to 18.
    pub kind: u64,
    /// Where its line begins in the text, in bytes.
    pub line: u64,
    /// The bytes of its line, with the line end.
    pub line_length: u64,
    /// The bytes of its path, with which the line begins.
    pub path_length: u64,
    /// The place of the first of its targets.
    pub target: u64,
    /// How many targets it has, those of all its links.
    pub targets: u64,
    /// What is known of it, by its kind.
    pub numbers: [u64; 6],
    /// Bit n is set where number n is a term that only running the code tells.
    pub is_computed: u64,
    /// The place of the first entry at the path around; `NONE` of the root, and where none is there.
    pub parent: u64,
    /// Of a Name: the place of its data among the parts; `NONE` of any other entry, and where the data is lost.
    pub part: u64,
    /// The number of the last literal of its condition; `NONE` where it has none: then it exists in every run.
    pub condition: u64,
    /// The table in which its term stands, from 0; `NONE` of a predefined object.
    pub table: u64,
    /// Where its term begins, in bytes from the table's first byte.
    pub place: u64,
    /// How many bytes its term has.
    pub length: u64,
    /// Of a method: where its TermList begins, in bytes from the table's first byte (20.2.5.2 DefMethod); else 0.
    pub code_place: u64,
    /// .. and the bytes of its TermList; else 0.
    pub code_length: u64,
}

/// What a link of an entry may find.
#[repr(C)]
#[derive(Clone, Copy, Debug)]
pub struct TargetRecord {
    /// The place of the first entry at the path; `NONE` where the link finds nothing for certain.
    pub entry: u64,
    /// Which link of the entry it is of, from 0.
    pub link: u64,
    /// 1 where the link finds one of its targets for certain, at the last of them if not before.
    pub is_certain: u64,
}

/// A literal of conditions: what has to be so, behind the one before it.
#[repr(C)]
#[derive(Clone, Copy, Debug)]
pub struct LiteralRecord {
    /// What it says: 0 if, 1 not, 2 while, 3 past, 4 has, 5 no, 6 needs.
    pub kind: u64,
    /// The number of the literal before it; `NONE` where a condition begins with it.
    pub before: u64,
    /// The table in which the If, the While, the stop or the term that asks stands, from 0.
    pub table: u64,
    /// Where it stands, in bytes from the table's first byte.
    pub place: u64,
    /// Where its text begins in the text, in bytes.
    pub text: u64,
    /// The bytes of its text.
    pub text_length: u64,
}

/// A problem or a note. Its line is in the text.
#[repr(C)]
#[derive(Clone, Copy, Debug)]
pub struct FindingRecord {
    /// Why: a letter's code and a number, as 0x4B06 for K6.
    pub reason: u64,
    /// 0 of a problem, 1 of a note.
    pub level: u64,
    /// The table in which it stands, from 0.
    pub table: u64,
    /// Where it stands, in bytes from the table's first byte.
    pub place: u64,
    /// Where the bytes begin that are lost, in bytes from the table's first byte; 0 where none are.
    pub lost_from: u64,
    /// Where they end.
    pub lost_to: u64,
    /// Where its line begins in the text, in bytes.
    pub line: u64,
    /// The bytes of its line, with the line end.
    pub line_length: u64,
}

/// A part of the data of a Name (ACPI 6.5, 20.2.3 and 20.2.5.4); each package stands before its elements.
#[repr(C)]
#[derive(Clone, Copy, Debug)]
pub struct PartRecord {
    /// The kind: 0 Integer, 1 String, 2 Buffer, 3 Package, 4 VarPackage, 5 Name, which is not searched, 6 a term that only running the code
    /// tells.
    pub kind: u64,
    /// The form of its constant: 0 Zero, 1 One, 2 Ones, 3 Revision, 4 Byte, 5 Word, 6 DWord, 7 QWord, 8 a term that only running the code
    /// tells.
    pub form: u64,
    /// The value of its constant; 0 of a Revision or a term, and where there is none.
    pub value: u64,
    /// The place of its first byte in the list of bytes.
    pub byte: u64,
    /// How many bytes it has there.
    pub bytes: u64,
    /// The place of the part behind its last element and behind all elements of that; without elements the next place.
    pub behind: u64,
}

/// The caller's arrays.
#[repr(C)]
#[derive(Drop)]
pub struct SurveyArrays<'a> {
    /// One record for each entry, in the order of the paths.
    pub entries: &'a mut [EntryRecord],
    /// What links may find.
    pub targets: &'a mut [TargetRecord],
    /// The literals of conditions.
    pub literals: &'a mut [LiteralRecord],
    /// Problems and notes.
    pub findings: &'a mut [FindingRecord],
    /// A line for each entry and each finding, and a text for each literal.
    pub text: &'a mut [u8],
    /// The data of Names, each package before its elements.
    pub parts: &'a mut [PartRecord],
    /// The bytes of strings and buffers, and the text of names in packages.
    pub bytes: &'a mut [u8],
}
