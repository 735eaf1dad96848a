//! Which values fit a space.

ghost use Rattle.std.specs.Prelude.{◌≡◌, ◌++◌, None, Some, IfOk, OnOk, IfErr};
ghost use Rattle.ua_space.specs.NodePlaces.{place_of};
ghost use Rattle.ua_space.specs.Values.{variable_in};
ghost use Rattle.store_restoring.specs.Fitting.{fitting, left_out, misfit, variable_misfit};

use crate::left_out::{LeftOut, Misfit};
use collections::Near;
use server_messages::KeptValue;
use std::alloc::{AllocError, Global};
use ua_space::{NodeDetails, Space};
use ua_types::DataValue;
use ua_views::NodeIdView;

// Why a node doesn't take a value, as its own or into its history.
fn misfit_at(details: &NodeDetails, value: &DataValue, is_historical: bool) -> Option<Misfit>
    ensures { result ≡ variable_misfit is_historical value.now (variable_in details.now) }
{
    let NodeDetails::Variable(variable) = details else {
        return Some(Misfit::NotAVariable);
    };
    if is_historical {
        if !variable.historizing {
            return Some(Misfit::NotHistorizing);
        }
        if value.source_time.is_none() {
            return Some(Misfit::Untimed);
        }
    }
    match &value.value {
        None => Some(Misfit::OtherType),
        Some(value) => {
            if variable.takes(value) {
                None
            } else {
                Some(Misfit::OtherType)
            }
        }
    }
}

/// The place of the node that takes a value that was kept, or why none does.
pub(crate) fn place_for(
    space: &Space,
    near: &mut Near,
    kept: &KeptValue,
    is_historical: bool,
) -> Result<usize, Misfit>
    ensures place { IfOk result (λ place. place_of kept.now.node_id space.now.nodes ≡ Some place) }
    ensures fits { OnOk result (misfit is_historical space.now.nodes kept.now ≡ None) }
    ensures misfit { IfErr result (λ why. misfit is_historical space.now.nodes kept.now ≡ Some why) }
{
    let Some(place) = space.place(near, &NodeIdView::of(&kept.node_id)) else {
        return Err(Misfit::NoNode);
    };
    let Some(node) = space.node_in_order(place) else {
        return Err(Misfit::NoNode);
    };
    match misfit_at(&node.details, &kept.value, is_historical) {
        None => Ok(place),
        Some(why) => Err(why),
    }
}

/// Those of the values that fit a space. The others are added to those that are left out.
pub(crate) fn sort_out(
    alloc: Global,
    space: &Space,
    kept: Vec<KeptValue>,
    is_historical: bool,
    others: &mut Vec<LeftOut>,
) -> Result<Vec<KeptValue>, AllocError>
    ensures fitting { IfOk result (λ fit. fit.items ≡ fitting is_historical space.now.nodes kept.items) }
    ensures left_out { OnOk result (others.new.items ≡ others.old.items ++ left_out is_historical space.now.nodes kept.items) }
{
    let mut fit = Vec::new(alloc);
    let mut near = Near::new();
    for one in kept {
        match place_for(space, &mut near, &one, is_historical) {
            Ok(_) => fit.push(one)?,
            Err(why) => others.push(LeftOut {
                kept: one,
                is_historical,
                why,
            })?,
        }
    }
    Ok(fit)
}
