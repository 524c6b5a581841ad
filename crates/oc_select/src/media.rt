//! Media types.

ghost use Rattle.std.specs.Prelude.{◌≡◌, map, option_map};
ghost use Rattle.oc_select.specs.Media.{ending, last_part, media_type, type_in};

use crate::text::is_alike;
use oc_base::cut;

/// The media type of bytes of which nothing more is known.
const OCTETS: &str = "application/octet-stream";

const HTML: &str = "text/html; charset=utf-8";

const PLAIN: &str = "text/plain; charset=utf-8";

/// The media type of each ending that is known.
const TYPES: [(&[u8], &str); 34] = [
    (b"html", HTML),
    (b"htm", HTML),
    (b"txt", PLAIN),
    (b"log", PLAIN),
    (b"css", "text/css"),
    (b"js", "text/javascript"),
    (b"mjs", "text/javascript"),
    (b"json", "application/json"),
    (b"xml", "application/xml"),
    (b"svg", "image/svg+xml"),
    (b"png", "image/png"),
    (b"jpg", "image/jpeg"),
    (b"jpeg", "image/jpeg"),
    (b"gif", "image/gif"),
    (b"webp", "image/webp"),
    (b"ico", "image/vnd.microsoft.icon"),
    (b"pdf", "application/pdf"),
    (b"mp4", "video/mp4"),
    (b"webm", "video/webm"),
    (b"mp3", "audio/mpeg"),
    (b"ogg", "audio/ogg"),
    (b"m3u8", "application/vnd.apple.mpegurl"),
    (b"ts", "video/mp2t"),
    (b"mpd", "application/dash+xml"),
    (b"vtt", "text/vtt"),
    (b"wasm", "application/wasm"),
    (b"zip", "application/zip"),
    (b"tar", "application/x-tar"),
    (b"gz", "application/gzip"),
    (b"xz", "application/x-xz"),
    (b"zst", "application/zstd"),
    (b"bz2", "application/x-bzip2"),
    (b"deb", "application/vnd.debian.binary-package"),
    (b"iso", "application/x-iso9660-image"),
];

/// The media type of the content of a path, by what is after the last `.` of its last segment, in any case.
pub fn media_type(path: &[u8]) -> &'static str
    ensures { result.now ≡ media_type path.now }
{
    match ending(last_part(path, b'/')) {
        Some(ending) => type_in(&TYPES, ending),
        None => OCTETS,
    }
}

/// What is after the last `.` of a segment; `None` without one.
fn ending(segment: &[u8]) -> Option<&[u8]>
    ensures { option_map (λ e. e.now) result ≡ ending segment.now }
{
    let (_, after) = cut(segment, b'.');
    Some(last_part(after?, b'.'))
}

/// The last of the parts that a byte separates.
fn last_part(bytes: &[u8], separator: u8) -> &[u8]
    ensures { result.now ≡ last_part separator bytes.now }
{
    let mut last = bytes;
    'parts: loop {
        match cut(last, separator) {
            (_, Some(after)) => last = after,
            (part, None) => return part,
        }
    }
}

/// The media type of an ending, in any case, and [`OCTETS`] where no row has it.
fn type_in(rows: &'static [(&'static [u8], &'static str)], ending: &[u8]) -> &'static str
    ensures { result.now ≡ type_in (map (λ row. (row.0.now, row.1.now)) rows.now) ending.now }
{
    let mut rest = rows;
    while let [row, others @ ..] = rest {
        if is_alike(row.0, ending) {
            return row.1;
        }
        rest = others;
    }
    OCTETS
}
