//! The texts of `--help` and `--version`.

use crate::words::Topic;

/// What `--version` prints: the version, and the logic of the kit that proves it, as `rt version` tells it.
pub const VERSION: &str = "acpins-survey 0.3.0 (rattle-kit logic dac8208d650f15bf)\n";

const PROGRAM: &str = "\
acpins-survey: what the tables DSDT and SSDT declare or may declare, and under which condition

  acpins-survey list FILE..         a line for each object that may exist, then problems and notes
  acpins-survey show PATH FILE..    the objects at PATH, with the bodies of methods
  acpins-survey uses [PATH] FILE..  where the objects at PATH and below are used, or all objects
  acpins-survey map FILE..          what each byte of each table is
  acpins-survey bodies FILE..       every method: read, or why not
  acpins-survey check FILE..        what is wrong, or probably a mistake
  acpins-survey diff OLD NEW        what differs between two machines
  acpins-survey report FILE..       an overview for people
  acpins-survey json FILE..         all of it, for programs
  acpins-survey html OUT FILE..     the overview as one page

  acpins-survey COMMAND --help      what COMMAND prints; so does: acpins-survey help COMMAND
  acpins-survey --version           the version, and the kit that built it

A FILE holds tables one after another, or the text that acpidump writes; - is standard input.
A folder stands for the tables in it: DSDT, then SSDT1, SSDT2 and so on, then the SSDTs in its
folder dynamic; so /sys/firmware/acpi/tables stands for the tables of this machine. A folder may
also hold what acpixtract writes (dsdt.dat, ssdt1.dat, ..), or DSDT.aml and SSDT1.aml, in any case
of letters. Other tables in it are passed over. The first table is the DSDT.

  --hex      the files are hexadecimal text
  --depth N  the greatest level that a term may have, 1 to 4096; 1024 without it
  --bodies   list has the objects that methods declare too
  --ignore   check leaves out the findings of the ID behind it
  -v         check, diff and report tell all of it: nothing is folded or cut short
  -h         the same as --help
  --         ends the options

The status is 0 where all is read, 3 where a table has a problem, check finds an error or a
warning, or diff a difference, 1 where a file or the output fails, and 2 where the arguments or
PATH are wrong.
";

const LIST: &str = "\
acpins-survey list [--bodies] [--hex] [--depth N] FILE..

prints a line for each object that may exist, in the order of the paths: its path, what it is, and
behind ? the condition under which it is declared. Then a line for each problem (!) and note (~),
in the order of the tables: the table, the offset, why, and what is lost. With --bodies the objects
that methods declare when they run have lines too, with the condition runs(METHOD).
";

const SHOW: &str = "\
acpins-survey show [--hex] [--depth N] PATH FILE..

prints the line of each object at PATH, as list does, and below that of a method its body. PATH is
\\, or \\ and names joined by dots, as \\_SB_.PCI0.
";

const USES: &str = "\
acpins-survey uses [--hex] [--depth N] [PATH] FILE..

prints where the objects at PATH and below are used, or all objects without PATH: below each path a
line for each use, with its role, the method and the line of its body, or the table and the offset.
? stands behind a use that is not sure. Then the names that are declared nowhere, and their uses.
PATH is the first argument where that begins with \\: a file of such a name is given as ./\\NAME.
";

const MAP: &str = "\
acpins-survey map [--hex] [--depth N] FILE..

prints what each byte of each table belongs to: a line for each range, with the table, the first
byte, the one behind the last, and what stands there. What stands in a range is below it.
";

const BODIES: &str = "\
acpins-survey bodies [--hex] [--depth N] FILE..

prints a line for each method of a table: that its terms are read, or why not, and where.
";

const CHECK: &str = "\
acpins-survey check [-v] [--ignore ID].. [--hex] [--depth N] FILE..

prints what looks wrong, a line for each finding: its level, its id, the path of an object or of a
method, what it is, and where it stands, in a body with the line. The levels are error, warning and
remark. Findings that are alike share a line; with -v each has its own. Those with an ID behind
--ignore are left out and not counted. The last line counts the others.
";

const DIFF: &str = "\
acpins-survey diff [-v] [--hex] [--depth N] OLD NEW

prints what differs between two machines, each of them a file or a folder: the tables; the devices
that are gone (-), new (+) or moved (>); what a system sees without running code; the objects of
devices that stayed; field lists; and lines of method bodies. What is alike is told once, and long
lists are cut short; with -v nothing is. The status is 0 where both have the same objects and
bodies, wherever they stand in the tables, and 3 where they differ.
";

const REPORT: &str = "\
acpins-survey report [-v] [--width N] [--hex] [--depth N] FILE..

prints an overview: what was found wrong, as check finds it; what the machine is: its devices of
note, sleep, wake, events, interrupt routing, heat and power; the tree of its devices with their
ids, addresses and resources; the regions of addresses that its code touches; and the objects with
a condition. With -v nothing is folded or cut short. Lines have at most 100 characters, or N, from
60 to 1000. It has colours where standard output is a terminal and NO_COLOR is unset or empty.
";

const JSON: &str = "\
acpins-survey json [--hex] [--depth N] FILE..

prints one object of JSON with all that list, show, bodies, uses, check, report and the headers of
the tables say.
";

const HTML: &str = "\
acpins-survey html [--hex] [--depth N] OUT FILE..

writes the report to the file OUT as one page of HTML, which needs no other file and no script:
with the code of each method, a map of the addresses, and the bytes of each table beside what they
are. It prints nothing. OUT must not be a file that holds ACPI tables. What stood in OUT stays
until the page is whole.
";

/// What `--help` prints on the topic.
pub fn help_of(topic: Topic) -> &'static str {
    match topic {
        Topic::Program => PROGRAM,
        Topic::List => LIST,
        Topic::Show => SHOW,
        Topic::Uses => USES,
        Topic::Map => MAP,
        Topic::Bodies => BODIES,
        Topic::Check => CHECK,
        Topic::Diff => DIFF,
        Topic::Report => REPORT,
        Topic::Json => JSON,
        Topic::Html => HTML,
    }
}
