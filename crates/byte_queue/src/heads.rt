// Where the first head of bytes ends.
ghost use Rattle.std.specs.Prelude.{◌≡◌, ◌≤◌, ◌<◌, ◌++◌, length};

/// How many bytes there are up to the first blank line, with the line ends after it, or all. Carriage returns don't
/// count.
pub fn head_end(bytes: &[u8]) -> usize
    ensures within { result ≤ length bytes.now }
    ensures some { 0 < length bytes.now → 0 < result }
{
    // as if a line had just ended: a blank line may begin in what came before
    let mut ended = true;
    let mut blank = false;
    for (at, byte) in bytes.iter().enumerate() {
        match *byte {
            b'\n' if ended => blank = true,
            b'\n' => ended = true,
            b'\r' => {}
            _ if blank => return at,
            _ => ended = false,
        }
    }
    bytes.len()
}

/// The bytes up to the end of the first head, and the others.
pub fn next_head(bytes: &[u8]) -> (&[u8], &[u8])
    ensures whole { result.0.now ++ result.1.now ≡ bytes.now }
    ensures some { 0 < length bytes.now → 0 < length result.0.now }
{
    bytes.split_at(head_end(bytes))
}

#[cfg(test)]
mod tests {
    use super::*;
    use std::test::Fail;

    const HEADS: &[(&[u8], &[u8])] = &[
        (b"", b""),
        (b"GET / HTTP/1.1\r\n", b""),
        (b"GET / HTTP/1.1\r\n\r\n", b""),
        (b"GET / HTTP/1.1\r\n\r\n", b"GET"),
        (b"GET / HTTP/1.1\n\n", b"GET"),
        (b"GET / HTTP/1.1\r\nHost: a\r\n\r\n", b"x\n\ny"),
        (b"a\n\r\n\n\r\n", b"b\n"),
        (b"\r\n\r\n\n", b"GET / HTTP/1.1\n\n"),
        (b"\n", b"GET"),
        (b"\rG\r\n\rE\n\n", b"T"),
    ];

    #[test]
    fn cuts_after_a_blank_line(rt: HostRuntime) -> Result<(), Fail> {
        for (head, rest) in HEADS {
            let mut bytes = Vec::new(rt.alloc());
            bytes.extend_from_slice(head)?;
            bytes.extend_from_slice(rest)?;
            let (found, left) = next_head(&bytes);
            assert!(rt; found == *head && left == *rest, "{head:?} {rest:?}");
        }
        Ok(())
    }
}
