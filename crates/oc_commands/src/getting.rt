//! The command `get`, which downloads a URL.
ghost use Rattle.std.specs.Prelude.{◌≡◌};
ghost use Rattle.oc_io.specs.Faults.{NoFall};
ghost use Rattle.oc_commands.specs.AtGet.{Downloaded, HappenedAtGet, is_done};
ghost use Rattle.oc_commands.specs.Outside.{at_link, at_sink};
ghost use Rattle.oc_commands.specs.Telling.{at_error};

use crate::progress::{Counting, finish};
use oc_client::{FetchOptions, GetEnd, Metered, follow, get};
use oc_io::Sink;
use oc_link::Dialler;
use oc_words::{Download, Name, text_of};
use std::alloc::Global;

/// Writes the content of a URL, or the news of a group, again and again, with a token or without.
/// If progress lines are wanted, they give the number of bytes written.
pub fn download<K: Sink, E: Sink, L: Dialler>(
    alloc: Global,
    wanted: &Download,
    token: &Option<Name>,
    out: &mut Metered<K, Counting<E>>,
    link: &mut L,
) -> GetEnd
    requires lines { out.old.lines.active ≡ wanted.now.progress }
    requires new { out.old.lines.count ≡ 0 }
    ensures happened { HappenedAtGet (at_link L.story L.faults link.old link.new)
        (at_sink K.takes K.fails K.faults out.old.sink out.new.sink)
        (at_error E.takes E.fails E.faults out.old.lines.sink.sink out.new.lines.sink.sink) wanted.now token.now result }
    ensures count { NoFall (K.faults out.old.sink) (K.faults out.new.sink) }
    ensures error_count { NoFall (E.faults out.old.lines.sink.sink) (E.faults out.new.lines.sink.sink) }
{
    let end = pass_on(alloc, wanted, token, out, link);
    finish(&mut out.lines, is_done(end));
    end
}

/// Whether the whole content was downloaded.
fn is_done(end: GetEnd) -> bool
    ensures { result ≡ is_done end }
{
    matches!(end, GetEnd::Done)
}

/// Passes the content on as it comes.
fn pass_on<K: Sink, L: Dialler>(
    alloc: Global,
    wanted: &Download,
    token: &Option<Name>,
    out: &mut K,
    link: &mut L,
) -> GetEnd
    ensures downloaded { Downloaded (at_link L.story L.faults link.old link.new)
        (at_sink K.takes K.fails K.faults out.old out.new) wanted.now token.now result }
    ensures count { NoFall (K.faults out.old) (K.faults out.new) }
{
    let address = wanted.address.as_str();
    let manner = FetchOptions {
        from: wanted.start,
        token: text_of(token),
    };
    match wanted.times {
        None => get(alloc, address, &manner, link, out),
        Some(times) => follow(alloc, address, times, &manner, link, out),
    }
}
