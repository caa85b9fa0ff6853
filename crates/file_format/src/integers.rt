// The numbers of a file: its bytes, and big-endian numbers of two and of four bytes, the higher byte first.
ghost use Rattle.std.specs.Prelude.{◌≡◌, ◌+◌, ◌≤◌, ◌<◌, length};
ghost use Rattle.file_format.specs.Format.{byte_at, two_bytes, four_bytes};

// A byte as a number of 32 bits.
pub fn wide(x: u8) -> u32
    ensures { (result ≡ x) × (result < 256) }
{
    x as u32
}

// The byte at place q, 0 beyond the file.
pub fn byte_at(file: &[u8], q: usize) -> u32
    ensures { (result ≡ byte_at file.now q) × (result < 256) }
{
    if file.len() <= q {
        return 0;
    }
    wide(file[q])
}

// The number of the two bytes from place q on.
pub fn two_bytes(file: &[u8], q: usize) -> u32
    requires { q + 2 ≤ length file.now }
    ensures { (result ≡ two_bytes file.now q) × (result < 65536) }
{
    wide(file[q]) * 256 + wide(file[q + 1])
}

// The same near the start of a file, whether it has the bytes or not: one beyond it is 0.
pub fn two_at(file: &[u8], q: usize) -> u32
    requires { q < 256 }
    ensures { (result ≡ two_bytes file.now q) × (result < 65536) }
{
    byte_at(file, q) * 256 + byte_at(file, q + 1)
}

// The number of the four bytes from place q on.
pub fn four_bytes(file: &[u8], q: usize) -> u32
    requires { q + 4 ≤ length file.now }
    ensures { result ≡ four_bytes file.now q }
{
    two_bytes(file, q) * 65536 + two_bytes(file, q + 2)
}
