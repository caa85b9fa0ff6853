// The map printer's limits: it reads files of at most 8,192 bytes, and lends a file as many numbers as its header asks for, or 2,048
// where that asks for more. The file is any list of bytes, so the header's lengths are any numbers of two bytes here.
ghost use Rattle.std.specs.Prelude.{◌≡◌, ◌<◌, min, length, ltb};
ghost use Rattle.header.specs.Header.{needed};
ghost use Rattle.file_format.specs.Format.{header_in};
ghost use Rattle.printing.specs.Text.{file_limit, lent_limit};

// Whether a file is longer than the printer reads.
pub fn too_long(file: &[u8]) -> bool
    ensures { result ≡ ltb file_limit (length file.now) }
{
    8192 < file.len()
}

// How many numbers the printer lends to a file.
pub fn lent_to(file: &[u8]) -> usize
    ensures { result ≡ min (needed (header_in file.now)) lent_limit }
{
    let length = header::bytes::volume_length(file_format::places::header_numbers(file).cell);
    if 2048 < length {
        return 2048;
    }
    length as usize
}
