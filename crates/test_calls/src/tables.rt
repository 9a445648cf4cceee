//! Whole tables.

/// A DSDT without code.
pub const EMPTY: &[u8] = b"DSDT$\0\0\0\x02\xAB\0\0\0\0\0\0\0\0\0\0\0\0\0\0\0\0\0\0\0\0\0\0\0\0\0\0";

/// Scope (\_SB) { Device (PCI0) { Name (_ADR, Zero) } }
pub const DSDT: &[u8] =
    b"DSDT8\0\0\0\x02\x93\0\0\0\0\0\0\0\0\0\0\0\0\0\0\0\0\0\0\0\0\0\0\0\0\0\0\x10\x13\\_SB_[\x82\x0BPCI0\x08_ADR\0";

/// Method (CALL) { Name (AA, Zero) Return (MTH2 (1, 2)) }
pub const CALL: &[u8] =
    b"DSDT:\0\0\0\x022\0\0\0\0\0\0\0\0\0\0\0\0\0\0\0\0\0\0\0\0\0\0\0\0\0\0\x14\x15CALL\0\x08AA__\0\xA4MTH2\x0A\x01\x0A\x02";

/// Scope (\_SB.PCI0) { Name (_UID, One) }
pub const SSDT: &[u8] =
    b"SSDT6\0\0\0\x026\0\0\0\0\0\0\0\0\0\0\0\0\0\0\0\0\0\0\0\0\0\0\0\0\0\0\x10\x11\\._SB_PCI0\x08_UID\x01";

/// External (\MTH2, MethodObj, 2 arguments) and the method of `CALL`.
pub const AWAITS: &[u8] =
    b"SSDTB\0\0\0\x02\x85\0\0\0\0\0\0\0\0\0\0\0\0\0\0\0\0\0\0\0\0\0\0\0\0\0\0\x15\\MTH2\x08\x02\x14\x15CALL\0\x08AA__\0\xA4MTH2\x0A\x01\x0A\x02";

/// Method (MTH2, 2 arguments) {}
pub const MTH2: &[u8] =
    b"SSDT+\0\0\0\x02^\0\0\0\0\0\0\0\0\0\0\0\0\0\0\0\0\0\0\0\0\0\0\0\0\0\0\x14\x06MTH2\x02";

/// Field (REG0, flags 01) { AA, 8, , 4, BB, 20 }
pub const FIELD: &[u8] =
    b"SSDT8\0\0\0\x02\xE9\0\0\0\0\0\0\0\0\0\0\0\0\0\0\0\0\0\0\0\0\0\0\0\0\0\0[\x81\x12REG0\x01AA__\x08\0\x04BB__\x14";

/// Name (XYZ, Zero)
pub const ZERO: &[u8] =
    b"SSDT*\0\0\0\x02$\0\0\0\0\0\0\0\0\0\0\0\0\0\0\0\0\0\0\0\0\0\0\0\0\0\0\x08XYZ_\0";

/// Name (XYZ, One)
pub const ONE: &[u8] =
    b"SSDT*\0\0\0\x02#\0\0\0\0\0\0\0\0\0\0\0\0\0\0\0\0\0\0\0\0\0\0\0\0\0\0\x08XYZ_\x01";
