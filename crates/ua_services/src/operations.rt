//! The list of a request that asks for several things.

ghost use Rattle.std.specs.Prelude.{◌≡◌, ◌<◌, ◌^◌, length, IfOk};
ghost use Rattle.std.specs.Result.{result_map_both};
ghost use Rattle.ua_services.specs.Operations.{count_judged, operations_of};
ghost use Rattle.ua_views.specs.Views.{or_none};

use ua_types::{Config, Status};
use ua_views::{ArrayView, View};

/// Whether a request may ask for so many things: `BAD_NOTHING_TO_DO` for none, `BAD_TOO_MANY_OPERATIONS` for more than
/// the configuration's `operations`.
pub(crate) fn judge(config: &Config, count: usize) -> Result<(), Status>
    ensures { result ≡ count_judged config.now count }
{
    if count == 0 {
        return Err(Status::BAD_NOTHING_TO_DO);
    }
    if count > config.operations as usize {
        return Err(Status::BAD_TOO_MANY_OPERATIONS);
    }
    Ok(())
}

/// What a request asks for.
///
/// `BAD_NOTHING_TO_DO` where the list is null or empty, `BAD_TOO_MANY_OPERATIONS` where it has more entries
/// than the configuration's `operations` (IEC 62541-4, "StatusCode").
pub(crate) fn operations<'a, T: View<'a>>(
    config: &Config,
    list: ArrayView<'a, T>,
) -> Result<ArrayView<'a, T>, Status>
    ensures entries { result_map_both or_none (λ code. code) result ≡ operations_of config.now list.entry }
    ensures short { IfOk result (λ entries. length (or_none entries) < 2 ^ 31) }
{
    judge(config, list.len())?;
    Ok(list)
}
