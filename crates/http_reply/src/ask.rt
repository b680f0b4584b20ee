// What a whole head asks for.
ghost use Rattle.std.specs.Prelude.{◌≡◌, ◌+◌, ◌<◌, ◌≤◌, length, take, map, reverse, codes, All, count_by};
ghost use Rattle.std.specs.List.{list_all, list_any};
ghost use Rattle.std.specs.Char.{is_ascii_digit};
ghost use Rattle.httparse.specs.Grammar.{trim_ows, skip_ows, is_ows};
ghost use Rattle.httparse.specs.Spans.{IsRequestWithin, IsHeaderWithin, header_bytes, span_bytes};
ghost use Rattle.http_spec.specs.Asks.{ask_with, is_fault};
ghost use Rattle.http_spec.specs.Words.{is_named, same_word, has_close_word, host_count, announces_body, is_close_line};
ghost use Rattle.http_spec.specs.Words.{is_misdirected, is_for_another, is_among_hosts, is_host, is_port_end};

use http_spec::{ParsedRequest, RequestKind};
use httparse::spans::{HeaderSpan, RequestSpans};
use sd_value::Str;

/// The ask of bytes that are no head.
pub(crate) const BAD_REQUEST: ParsedRequest = ParsedRequest {
    kind: RequestKind::BadRequest,
    no_body: false,
    close: true,
};

/// What a head asks for, whose parts lie at these places, where requests for these hosts are answered.
pub(crate) fn ask_at(
    bytes: &[u8],
    spans: &RequestSpans,
    headers: &[HeaderSpan],
    hosts: &Option<Str>,
) -> ParsedRequest
    requires within { IsRequestWithin bytes.now headers.now spans.now }
    ensures { result
        ≡ ask_with hosts.now (span_bytes bytes.now spans.now.method) spans.now.version
        (map (header_bytes bytes.now) (take spans.now.headers headers.now)) }
{
    let headers = &headers[..spans.headers];
    let method = spans.method.of(bytes);
    let host_lines = count_hosts(bytes, headers);
    let is_head = method == b"HEAD".as_slice();
    let kind = if host_lines > 1 || (spans.version == 1 && host_lines == 0) {
        RequestKind::BadRequest
    } else if is_misdirected(bytes, headers, hosts) {
        RequestKind::Misdirected
    } else if !is_head && method != b"GET".as_slice() {
        RequestKind::WrongMethod
    } else if some_announces_body(bytes, headers) {
        RequestKind::BadRequest
    } else if is_head {
        RequestKind::Head
    } else {
        RequestKind::Get
    };
    ParsedRequest {
        kind,
        no_body: is_head,
        close: is_fault(kind) || spans.version == 0 || some_is_close_line(bytes, headers),
    }
}

/// Whether a request of this kind is refused.
fn is_fault(kind: RequestKind) -> bool
    ensures { result ≡ is_fault kind }
{
    matches!(
        kind,
        RequestKind::BadRequest | RequestKind::Misdirected | RequestKind::WrongMethod
    )
}

/// Whether the header line has this name, in any case.
fn is_named(bytes: &[u8], header: &HeaderSpan, name: &[u8]) -> bool
    requires { IsHeaderWithin (length bytes.now) header.now }
    ensures { result ≡ is_named name.now (header_bytes bytes.now header.now) }
{
    header.name.of(bytes).eq_ignore_ascii_case(name)
}

/// How many Host lines there are.
fn count_hosts(bytes: &[u8], headers: &[HeaderSpan]) -> usize
    requires { All (IsHeaderWithin (length bytes.now)) headers.now }
    ensures { result ≡ host_count (map (header_bytes bytes.now) headers.now) }
{
    let mut count = 0;
    for header in headers {
        if is_named(bytes, header, b"host") {
            count += 1;
        }
    }
    count
}

/// Whether a Host line is for none of the hosts, where only requests for these are answered.
fn is_misdirected(bytes: &[u8], headers: &[HeaderSpan], hosts: &Option<Str>) -> bool
    requires { All (IsHeaderWithin (length bytes.now)) headers.now }
    ensures { result ≡ is_misdirected hosts.now (map (header_bytes bytes.now) headers.now) }
{
    match hosts {
        Some(hosts) => some_is_for_another(bytes, headers, hosts.bytes()),
        None => false,
    }
}

/// Whether a Host line is for none of these hosts.
fn some_is_for_another(bytes: &[u8], headers: &[HeaderSpan], hosts: &[u8]) -> bool
    requires { All (IsHeaderWithin (length bytes.now)) headers.now }
    ensures { result
        ≡ list_any (is_for_another hosts.now) (map (header_bytes bytes.now) headers.now) }
{
    for header in headers {
        if is_for_another(bytes, header, hosts) {
            return true;
        }
    }
    false
}

/// Whether the line is a Host line for none of these hosts.
fn is_for_another(bytes: &[u8], header: &HeaderSpan, hosts: &[u8]) -> bool
    requires { IsHeaderWithin (length bytes.now) header.now }
    ensures { result ≡ is_for_another hosts.now (header_bytes bytes.now header.now) }
{
    is_named(bytes, header, b"host") && !is_among_hosts(hosts, header.value.of(bytes))
}

/// Whether the value of a Host line is one of the hosts between the commas.
fn is_among_hosts(hosts: &[u8], value: &[u8]) -> bool
    ensures { result ≡ is_among_hosts hosts.now value.now }
{
    hosts.split(|b| *b == b',').any(|name| is_host(value, name))
}

/// Whether the value of a Host line is this host, in any case and whatever its port.
fn is_host(value: &[u8], name: &[u8]) -> bool
    ensures { result ≡ is_host value.now name.now }
{
    if value.len() < name.len() {
        return false;
    }
    let (front, end) = value.split_at(name.len());
    front.eq_ignore_ascii_case(name) && is_port_end(end)
}

/// Whether these bytes are nothing, or a colon and digits, perhaps none.
fn is_port_end(end: &[u8]) -> bool
    ensures { result ≡ is_port_end end.now }
{
    match end {
        [] => true,
        [first, digits @ ..] => *first == b':' && are_digits(digits),
    }
}

/// Whether each byte is a digit.
fn are_digits(bytes: &[u8]) -> bool
    ensures { result ≡ list_all is_ascii_digit bytes.now }
{
    bytes.iter().all(|b| b.is_ascii_digit())
}

/// Whether the line announces a body.
fn announces_body(bytes: &[u8], header: &HeaderSpan) -> bool
    requires { IsHeaderWithin (length bytes.now) header.now }
    ensures { result ≡ announces_body (header_bytes bytes.now header.now) }
{
    is_named(bytes, header, b"transfer-encoding")
        || (is_named(bytes, header, b"content-length") && header.value.of(bytes) != b"0".as_slice())
}

/// Whether a line announces a body.
fn some_announces_body(bytes: &[u8], headers: &[HeaderSpan]) -> bool
    requires { All (IsHeaderWithin (length bytes.now)) headers.now }
    ensures { result ≡ list_any announces_body (map (header_bytes bytes.now) headers.now) }
{
    for header in headers {
        if announces_body(bytes, header) {
            return true;
        }
    }
    false
}

/// Whether the line asks that the connection be closed.
fn is_close_line(bytes: &[u8], header: &HeaderSpan) -> bool
    requires { IsHeaderWithin (length bytes.now) header.now }
    ensures { result ≡ is_close_line (header_bytes bytes.now header.now) }
{
    is_named(bytes, header, b"connection") && has_close_word(header.value.of(bytes))
}

/// Whether a line asks that the connection be closed.
fn some_is_close_line(bytes: &[u8], headers: &[HeaderSpan]) -> bool
    requires { All (IsHeaderWithin (length bytes.now)) headers.now }
    ensures { result ≡ list_any is_close_line (map (header_bytes bytes.now) headers.now) }
{
    for header in headers {
        if is_close_line(bytes, header) {
            return true;
        }
    }
    false
}

/// Whether one of the words between the commas is `close`.
fn has_close_word(value: &[u8]) -> bool
    ensures { result ≡ has_close_word value.now }
{
    value.split(|b| *b == b',').any(|word| is_close(word))
}

/// Whether the word is `close` in any case, the spaces and tabs round it aside.
fn is_close(word: &[u8]) -> bool
    ensures { result ≡ same_word (trim_ows word.now) (codes "close") }
{
    trim_blanks(word).eq_ignore_ascii_case(b"close")
}

/// The word without the spaces and tabs at both ends.
fn trim_blanks(word: &[u8]) -> &[u8]
    ensures { result.now ≡ trim_ows word.now }
{
    trim_blanks_end(trim_blanks_start(word))
}

/// The word without the spaces and tabs before it.
fn trim_blanks_start(word: &[u8]) -> &[u8]
    ensures { result.now ≡ skip_ows word.now }
{
    let mut start = 0;
    while start < word.len() && is_blank(word[start]) {
        start += 1;
    }
    &word[start..]
}

/// The word without the spaces and tabs after it.
fn trim_blanks_end(word: &[u8]) -> &[u8]
    ensures { result.now ≡ reverse (skip_ows (reverse word.now)) }
{
    let mut end = word.len();
    while end > 0 && is_blank(word[end - 1]) {
        end -= 1;
    }
    &word[..end]
}

/// Whether the byte is a space or a tab.
fn is_blank(byte: u8) -> bool
    ensures { result ≡ is_ows byte }
{
    byte == b' ' || byte == b'\t'
}
