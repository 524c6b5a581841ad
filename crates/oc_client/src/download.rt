//! Downloads of a URL.

ghost use Rattle.std.specs.Prelude.{◌≡◌, IfOk};
ghost use Rattle.oc_client.specs.Addresses.{IsAddressOf, IsBadAddress};
ghost use Rattle.oc_client.specs.Completeness.{Completes};
ghost use Rattle.oc_client.specs.Conversations.{Converses};
ghost use Rattle.oc_client.specs.Downloads.{Downloads, IsUnasked, first_state, content_of, news_of};
ghost use Rattle.oc_client.specs.Ends.{end_of_url};
ghost use Rattle.oc_client.specs.Passing.{IsTalked};
ghost use Rattle.oc_client.specs.Redirections.{StopsAtThird};
ghost use Rattle.oc_client.specs.Wishes.{wish_of, from_of};
ghost use Rattle.oc_io.specs.Faults.{NoFall, Rose};
ghost use Rattle.oc_link.specs.Calls.{Told};
ghost use Rattle.url.specs.Parts.{Parts};

use crate::address::{UrlFault, read_address};
use crate::client_state::ClientState;
use crate::conversation::converse;
use crate::end::GetEnd;
use crate::fetch_options::FetchOptions;
use crate::query;
use crate::target::Target;
use crate::wish::Wish;
use oc_base::Memory;
use oc_http::a_response_head_has_one_answer;
use oc_io::Sink;
use oc_link::Dialler;
use std::alloc::Global;
use url::Url;

/// The greatest number of redirections that a download follows.
pub const MAX_REDIRECTIONS: u8 = 2;

/// Downloads the content of a URL onto a sink, in pieces of at most 64 KiB as they come (RFC 9110, section 9.3.1).
/// The address is an `http` URL with a host, without a user and a password. Each Location of a 302 is followed, at
/// most `MAX_REDIRECTIONS` of them. Where the manner has a byte to begin from, the first request has it as
/// `start=` before the query of the URL; a Location says its own. Where the manner has a token, each request shows
/// it: to the host of the URL, and to each host that a Location names. A chunked reply ends the download with
/// `Reply`. With an end other than `Done` a prefix of the content was written, and nothing where no 200 came. Each
/// connection is ended.
pub fn get<L: Dialler, K: Sink>(
    alloc: Global,
    address: &str,
    manner: &FetchOptions<'_>,
    link: &mut L,
    sink: &mut K,
) -> GetEnd
    ensures talked { IsTalked K.takes K.fails (Downloads (content_of manner.now) manner.now.from address.now 1)
        (L.story link.old) (L.story link.new) sink.old sink.new result }
    ensures bad { IsBadAddress address.now → IsUnasked address.now result }

    // The end is `Redirects` only after a third 302 with a good Location, and always then, unless a
    // call on the link or memory failed.
    ensures redirects { IsTalked K.takes K.fails (λ turns written end. StopsAtThird address.now turns end)
        (L.story link.old) (L.story link.new) sink.old sink.new result }

    // If the replies lead to a whole content, none is refused.
    ensures complete { (url : Parts) → IsAddressOf address.now url
        → Told (Completes manner.now url result) (L.story link.old) (L.story link.new) }

    ensures link_count { NoFall (L.faults link.old) (L.faults link.new) }
    ensures sink_count { NoFall (K.faults sink.old) (K.faults sink.new) }
    ensures link_cause { result ≡ GetEnd.Link → Rose (L.faults link.old) (L.faults link.new) }
    ensures sink_cause { result ≡ GetEnd.Sink → Rose (K.faults sink.old) (K.faults sink.new) }
{
    a_response_head_has_one_answer();
    match read_address(alloc, address) {
        Ok(url) => download(alloc, &Wish::Whole(manner), url, 1, link, sink),
        Err(fault) => unasked(fault),
    }
}

/// Downloads the news of a group onto a sink, again and again: until a reply gives the length of
/// its content, or until `times` replies of 200 have come. Each request asks from the byte after
/// those written, at first from the byte of the manner, or else the `start` of the URL's query, on
/// the previous connection if that is kept (RFC 9112, section 9.3). A reply may be chunked.
/// Redirections are counted over the whole call. The ends are those of `get`. Requests to the
/// address of a Location keep the knowledge of the group that its query gives.
pub fn follow<L: Dialler, K: Sink>(
    alloc: Global,
    address: &str,
    times: u64,
    manner: &FetchOptions<'_>,
    link: &mut L,
    sink: &mut K,
) -> GetEnd
    ensures talked { IsTalked K.takes K.fails (Downloads (news_of manner.now) manner.now.from address.now times)
        (L.story link.old) (L.story link.new) sink.old sink.new result }
    ensures bad { IsBadAddress address.now → IsUnasked address.now result }

    // The end is `Redirects` only after a third 302 with a good Location, and always then, unless a
    // call on the link or memory failed.
    ensures redirects { IsTalked K.takes K.fails (λ turns written end. StopsAtThird address.now turns end)
        (L.story link.old) (L.story link.new) sink.old sink.new result }

    ensures link_count { NoFall (L.faults link.old) (L.faults link.new) }
    ensures sink_count { NoFall (K.faults sink.old) (K.faults sink.new) }
    ensures link_cause { result ≡ GetEnd.Link → Rose (L.faults link.old) (L.faults link.new) }
    ensures sink_cause { result ≡ GetEnd.Sink → Rose (K.faults sink.old) (K.faults sink.new) }
{
    a_response_head_has_one_answer();
    match read_address(alloc, address) {
        Ok(url) => match news(alloc, manner, &url) {
            Ok(wish) => download(alloc, &wish, url, times, link, sink),
            Err(Memory) => GetEnd::Memory,
        },
        Err(fault) => unasked(fault),
    }
}

/// The end of a download whose address is refused before any request.
fn unasked(fault: UrlFault) -> GetEnd
    ensures { result ≡ end_of_url fault }
{
    match fault {
        UrlFault::Bad => GetEnd::BadUrl,
        UrlFault::Memory => GetEnd::Memory,
    }
}

/// The wish of a client that follows the group of a URL.
fn news<'a>(alloc: Global, manner: &'a FetchOptions<'a>, url: &Url) -> Result<Wish<'a>, Memory>
    ensures { IfOk result (λ wish. wish_of wish ≡ news_of manner.now url.now) }
{
    match query::area(url.query()) {
        Some(area) => Ok(Wish::News(manner, Some(String::from_str(alloc, area)?))),
        None => Ok(Wish::News(manner, None)),
    }
}

/// Makes requests, beginning with a URL, until `times` replies have come.
fn download<L: Dialler, K: Sink>(
    alloc: Global,
    wish: &Wish<'_>,
    url: Url,
    times: u64,
    link: &mut L,
    sink: &mut K,
) -> GetEnd
    ensures talked { IsTalked K.takes K.fails (Converses (wish_of wish.now) (first_state (from_of (wish_of wish.now)) url times))
        (L.story link.old) (L.story link.new) sink.old sink.new result }
    ensures link_count { NoFall (L.faults link.old) (L.faults link.new) }
    ensures sink_count { NoFall (K.faults sink.old) (K.faults sink.new) }
    ensures link_cause { result ≡ GetEnd.Link → Rose (L.faults link.old) (L.faults link.new) }
    ensures sink_cause { result ≡ GetEnd.Sink → Rose (K.faults sink.old) (K.faults sink.new) }
{
    let start = wish.from().unwrap_or(query::start(url.query()));
    match Target::new(alloc, url) {
        Ok(target) => {
            let state = ClientState {
                target,
                led: false,
                start,
                kept: false,
                redirections: MAX_REDIRECTIONS,
                replies: times,
            };
            converse(alloc, wish, state, link, sink)
        }
        Err(Memory) => GetEnd::Memory,
    }
}
