// Bytes compared: a key in front of them, two texts the same; and digits.
// Every function here takes any bytes. Each is a line of the library, kept for its clause: callers have the sheets' word
// and no copy of the proof.
#![tactic(auto)]

ghost use Rattle.std.specs.Prelude.{◌≡◌};
ghost use Rattle.terms.specs.Choice.{same};
ghost use Rattle.text.specs.Text.{starts};

pub mod digits;
pub mod scan;

pub fn starts_with(bytes: &[u8], key: &[u8]) -> bool
    ensures { result ≡ starts key.now bytes.now }
{
    bytes.starts_with(key)
}

pub fn equal(bytes: &[u8], other: &[u8]) -> bool
    ensures { result ≡ same bytes.now other.now }
{
    bytes == other
}
