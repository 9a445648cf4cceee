//! EISA ids (ACPI 6.5, 6.1.5 and 19.3.4).

ghost use Rattle.std.specs.Prelude.{◌≡◌, ◌≢◌, ◌+◌, ◌<◌, ◌≤◌, ◌^◌, ℕ, true, nat_le, ◌&&◌, if◌then◌else◌, Some, None, IsTrue, IfSome, IfNone};
ghost use Rattle.std.specs.Fmt.{digit_glyph};
ghost use Rattle.acpi_resources.specs.EisaIds.{is_eisa_number, is_letter_number, eisa_text};

/// The seven characters of a number, as `PNP0A03` of 0x030AD041 (ACPI 6.5, 6.1.5). `None` where the top bit of the
/// lowest byte is set or five bits are no letter.
pub fn eisa_id(number: u32) -> Option<[u8; 7]>
    ensures { result ≡ (if is_eisa_number number then Some (eisa_text number) else None) }
{
    let [a, b, c, d] = number.to_le_bytes();
    Some([
        letter(a / 4)?,
        letter(a % 4 * 8 + b / 32)?,
        letter(b % 32)?,
        digit(c / 16),
        digit(c % 16),
        digit(d / 16),
        digit(d % 16),
    ])
}

/// The number of seven characters: three capital letters and four hexadecimal digits in capitals (ACPI 6.5,
/// 19.3.4). `None` of any other text.
pub fn eisa_number(text: &[u8]) -> Option<u32>
    // Its id is the text.
    ensures found { IfSome result (λ n. IsTrue (is_eisa_number n) × (eisa_text n ≡ text.now)) }
    // The number of an id is found.
    ensures only { (n : ℕ) → n < 2 ^ 32 → IsTrue (is_eisa_number n) → eisa_text n ≡ text.now
        → result ≡ Some n }
{
    let [a, b, c, d, e, f, g] = text else {
        return None;
    };
    let first = letter_number(*a)?;
    let second = letter_number(*b)?;
    let third = letter_number(*c)?;
    let (d, e) = (digit_number(*d)?, digit_number(*e)?);
    let (f, g) = (digit_number(*f)?, digit_number(*g)?);
    Some(u32::from_le_bytes([
        first * 4 + second / 8,
        second % 8 * 32 + third,
        d * 16 + e,
        f * 16 + g,
    ]))
}

// The letter of a number, 1 for A.
fn letter(number: u8) -> Option<u8>
    ensures { result ≡ (if is_letter_number number then Some (64 + number) else None) }
{
    if 1 <= number && number <= 26 {
        Some(64 + number)
    } else {
        None
    }
}

// The number of a letter, 1 for A.
fn letter_number(letter: u8) -> Option<u8>
    ensures found { IfSome result (λ n. (1 ≤ n) × (n ≤ 26) × (64 + n ≡ letter)) }
    ensures none { IfNone result ((n : ℕ) → 1 ≤ n → n ≤ 26 → 64 + n ≢ letter) }
{
    match letter {
        b'A'..=b'Z' => Some(letter - 64),
        _ => None,
    }
}

// The hexadecimal digit of a number, in capitals.
fn digit(number: u8) -> u8
    requires { number < 16 }
    ensures { result ≡ digit_glyph true number }
{
    if number < 10 {
        48 + number
    } else {
        55 + number
    }
}

// The number of a hexadecimal digit in capitals.
fn digit_number(digit: u8) -> Option<u8>
    ensures found { IfSome result (λ n. (n < 16) × (digit_glyph true n ≡ digit)) }
    ensures none { IfNone result ((n : ℕ) → n < 16 → digit_glyph true n ≢ digit) }
{
    match digit {
        b'0'..=b'9' => Some(digit - 48),
        b'A'..=b'F' => Some(digit - 55),
        _ => None,
    }
}
