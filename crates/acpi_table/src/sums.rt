//! Sums of bytes.

ghost use Rattle.std.specs.Prelude.{◌≡◌, ◌+◌, ◌%◌, sum};
ghost use Rattle.acpi_table.specs.Tables.{sum_of};

/// The sum of the bytes modulo 256, which is 0 for a whole table (ACPI 6.5, 5.2.6).
pub fn byte_sum(bytes: &[u8]) -> u8
    ensures { result ≡ sum_of bytes.now }
{
    let mut total: u8 = 0;
    for byte in bytes {
        total = total.wrapping_add(*byte);
    }
    total
}

/// The byte that brings the sum of these bytes to 0 modulo 256 (ACPI 6.5, 5.2.6, Checksum).
pub fn checksum_for(bytes: &[u8]) -> u8
    ensures { (sum bytes.now + result) % 256 ≡ 0 }
{
    0u8.wrapping_sub(byte_sum(bytes))
}
