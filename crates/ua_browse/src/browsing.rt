//! Pages of a node's references, and the points between them.

ghost use Rattle.std.specs.Prelude.{◌≡◌, ◌<◌, ◌^◌, length, Some, Err, IfErr, IfOk};
ghost use Rattle.std.specs.Result.{result_map_both};
ghost use Rattle.ua_types.specs.Answers.{step};
ghost use Rattle.ua_types.specs.declared.refusal.Refusal.TheVariants.{Service};
ghost use Rattle.ua_session.specs.Points.{TakesSerial};
ghost use Rattle.ua_browse.specs.Browsing.{page_size as page_size_spec, page_of, browse_of, browse_next_of, release_of};
ghost use Rattle.ua_browse.specs.Wanted.{judged as judged_spec};

use crate::asked::Asked;
use crate::describing::Described;
use crate::pages::page_from;
use crate::wanted::judged;
use std::alloc::Global;
use ua_service_messages::BrowseDescriptionView;
use ua_session::{BrowsePoint, Point, Points};
use ua_space::Space;
use ua_types::{Array, NodeId, Refusal, Status};

/// References of a node, and the serial of the point by which BrowseNext gives more of them.
#[derive(Drop)]
pub struct Page<'a> {
    /// Each is written from where it stands in the space.
    pub references: Array<Described<'a>>,
    /// None where no more are left.
    pub point: Option<u64>,
}

/// How many references a page has at most: so many as are asked for, where 0 asks for all, and never more than
/// `most`.
pub fn page_size(most: u32, requested: u32) -> u32
    ensures { result ≡ page_size_spec most requested }
{
    if requested == 0 || requested > most {
        most
    } else {
        requested
    }
}

// The page that goes on at a point, where one could be held.
fn paged<'a>(
    references: Vec<Described<'a>>,
    point: Result<u64, Refusal>,
) -> Result<Page<'a>, Refusal>
    requires { length references.items < 2 ^ 31 }
    ensures { result ≡ result_map_both (λ serial. page_of references.entry.items (Some serial)) (λ refusal. refusal) point }
{
    match point {
        Ok(serial) => Ok(Page {
            references: Array::new(references),
            point: Some(serial),
        }),
        Err(refusal) => Err(refusal),
    }
}

/// The references of a node that a description asks for, or as many of them as a page has (IEC 62541-4, 5.8.2,
/// Browse). `size` is the most references of a page, of [`page_size`], at least 1.
///
/// It refuses in this order: no node has the id, `BAD_NODE_ID_UNKNOWN`; the reference type is neither null
/// nor a ReferenceType node, `BAD_REFERENCE_TYPE_ID_INVALID`; the direction is none of the three,
/// `BAD_BROWSE_DIRECTION_INVALID`; there are more references than the page has, and no room for another
/// point, `BAD_NO_CONTINUATION_POINTS`. `Exhausted` where no serial is left for the point. The first three come
/// however little memory there is: nothing grows before. At an `Err` the points are as they were.
///
/// The description is looked at where it came, and copied only into a point. Of the references nothing is copied.
#[tactic(auto, unfolding(crate::specs::Browsing::browse_of), using(crate::proofs::Paging::takes_page))]
pub fn browse<'a>(
    alloc: Global,
    space: &'a Space,
    points: &mut Points,
    size: u32,
    description: &BrowseDescriptionView<'_>,
) -> Result<Page<'a>, Refusal>
    ensures taken { TakesSerial result points.old points.new (browse_of space.now points.old size description.now) }
    ensures judged { IfErr (judged_spec space.now.nodes description.now) (λ code. result ≡ Err (Service code)) }
{
    let null = NodeId::null();
    let asked = match judged(space, &null, description) {
        Ok(asked) => asked,
        Err(status) => return Err(Refusal::Service(status)),
    };
    let cut = page_from(alloc, space, &asked, size, 0)?;
    match cut.next {
        None => Ok(Page {
            references: Array::new(cut.references),
            point: None,
        }),
        Some(next) => {
            let description = asked.copy(alloc)?;
            let further = Point::Browse(BrowsePoint {
                description,
                size,
                next,
            });
            paged(cut.references, points.hold(further))
        }
    }
}

/// The next page after a point (IEC 62541-4, 5.8.3, BrowseNext). The point is used up; where more references are
/// left, another one stands for them.
///
/// `BAD_CONTINUATION_POINT_INVALID` where no point of Browse has the serial, however little memory there is.
/// `Exhausted` where no serial is left for the new point. At an `Err` the points are as they were.
#[tactic(auto, unfolding(crate::specs::Browsing::browse_next_of), using(crate::proofs::Paging::takes_page))]
pub fn browse_next<'a>(
    alloc: Global,
    space: &'a Space,
    points: &mut Points,
    serial: u64,
) -> Result<Page<'a>, Refusal>
    ensures taken { TakesSerial result points.old points.new (browse_next_of space.now points.old serial) }
    ensures held { IfErr (release_of points.old serial).answer (λ code. result ≡ Err (Service code)) }
{
    let Some(Point::Browse(point)) = points.get(serial) else {
        return Err(Refusal::Service(Status::BAD_CONTINUATION_POINT_INVALID));
    };
    let size = point.size;
    let asked = Asked::by(&point.description);
    let cut = page_from(alloc, space, &asked, size, point.next)?;
    match cut.next {
        None => {
            points.give_up(serial);
            Ok(Page {
                references: Array::new(cut.references),
                point: None,
            })
        }
        Some(next) => {
            let description = asked.copy(alloc)?;
            let further = Point::Browse(BrowsePoint {
                description,
                size,
                next,
            });
            paged(cut.references, points.replace(serial, further))
        }
    }
}

/// Gives a point of Browse up. Takes no memory.
///
/// `BAD_CONTINUATION_POINT_INVALID` where none has the serial; then nothing changed.
pub fn release(points: &mut Points, serial: u64) -> Result<(), Status>
    ensures { step result points.new ≡ release_of points.old serial }
{
    if !matches!(points.get(serial), Some(Point::Browse(_))) {
        return Err(Status::BAD_CONTINUATION_POINT_INVALID);
    }
    points.give_up(serial);
    Ok(())
}
