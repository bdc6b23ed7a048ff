// Formats: what stands behind each `%`, and how many numbers a format prints.

ghost use Rattle.std.specs.Prelude.{◌≡◌, ◌≤◌, length};
ghost use Rattle.vx_ast.specs.Accepted.{is_format, numbers_of};

/// Whether behind each `%` of a format stands `d` or `%`.
pub fn is_format(format: &[u8]) -> bool
    ensures { result ≡ is_format format.now }
{
    let mut directive = false;
    for byte in format {
        if directive {
            if *byte != b'%' && *byte != b'd' {
                return false;
            }
            directive = false;
        } else {
            directive = *byte == b'%';
        }
    }
    !directive
}

/// How many numbers a format prints.
pub fn numbers_of(format: &[u8]) -> usize
    ensures count { result ≡ numbers_of format.now }
{
    let mut count: usize = 0;
    let mut directive = false;
    for byte in format {
        if directive {
            if *byte == b'd' {
                count += 1;
            }
            directive = false;
        } else {
            directive = *byte == b'%';
        }
    }
    count
}
