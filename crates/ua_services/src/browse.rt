//! The service Browse (IEC 62541-4, "Browse").

ghost use Rattle.std.specs.Prelude.{◌≡◌};
ghost use Rattle.ua_browse.specs.Browsing.{page_size as page_size_spec, browse_of};
ghost use Rattle.ua_messages.specs.declared.type_ids.TheConstants.{BROWSE_RESPONSE};
ghost use Rattle.ua_services.specs.Browse.{browse_meaning};
ghost use Rattle.ua_services.specs.BrowseResults.{browse_told};
ghost use Rattle.ua_services.specs.RisingSerials.{browse_rises};

use crate::browse_results::tell;
use crate::caller::Caller;
use crate::operations::operations;
use crate::paging::{Pages, Shown, serve_pages};
use crate::services::Services;
use crate::session_service::SessionService;
use server_messages::{Halt, Served, Setting};
use ua_browse::{browse, page_size};
use ua_messages::{MessageBody, type_ids};
use ua_service_messages::{BrowseDescriptionView, BrowseRequestView, BrowseResult};
use ua_session::Points;
use ua_types::{Config, Refusal, Status};

// How many references a page has at most under this configuration.
fn size_in(config: &Config, requested: u32) -> u32
    ensures { result ≡ page_size_spec config.now.references requested }
{
    page_size(config.references, requested)
}

// The first page of each node.
#[derive(Drop)]
struct FirstPages {
    // How many references a page has at most.
    size: u32,
}

#[tactic(auto, using(crate::proofs::PagingLemmas::does_one))]
impl<'a> Pages<'a> for FirstPages {
    type Asked = BrowseDescriptionView<'a>;

    type Answer = BrowseResult;

    ghost RESPONSE = { BROWSE_RESPONSE };

    ghost meaning = { λ pages space history points d. browse_told (browse_of space points pages.size d) };

    fn response(&self) -> u32
        ensures { result ≡ BROWSE_RESPONSE }
    {
        type_ids::BROWSE_RESPONSE
    }

    fn page(
        &self,
        shown: &Shown<'_>,
        points: &mut Points,
        description: BrowseDescriptionView<'a>,
        body: &mut MessageBody,
    ) -> Result<(), Halt> {
        let page = browse(shown.alloc, shown.space, points, self.size, &description);
        tell(shown.alloc, page, body)
    }

    ghost rises = { λ pages space history. browse_rises space pages.size };
}

/// Gives the references of nodes, page by page.
///
/// The faults, in this order: `BAD_VIEW_ID_UNKNOWN` where a view is named, since there are none;
/// `BAD_NOTHING_TO_DO` for a list that is null or empty, `BAD_TOO_MANY_OPERATIONS` for one with
/// more entries than the configuration's `operations`. What is wrong with one node is told in its result
/// ([`ua_browse::browse`]).
pub struct Browse;

impl<'a> SessionService<'a> for Browse {
    type Request = BrowseRequestView<'a>;

    ghost meaning = { browse_meaning };

    fn serve(
        setting: &Setting,
        caller: &Caller,
        session: u32,
        request: BrowseRequestView<'a>,
        services: &mut Services,
    ) -> Result<Served, Refusal> {
        if !request.view_id.is_null() {
            return Err(Refusal::Service(Status::BAD_VIEW_ID_UNKNOWN));
        }
        let descriptions = operations(&setting.config, request.nodes_to_browse)?;
        let requested = request.requested_max_references_per_node;
        let pages = FirstPages {
            size: size_in(&setting.config, requested),
        };
        serve_pages(setting, caller, session, services, &pages, descriptions)
    }
}
