//! The service Write (IEC 62541-4, "Write").

ghost use Rattle.std.specs.Prelude.{◌≡◌, ◌++◌, [], ◌∷◌, Some, length, OnOk, IfOk};
ghost use Rattle.ua_types.specs.declared.node_id.NodeId.{NodeId};
ghost use Rattle.ua_space.specs.NodePlaces.{IsTakenIn, place_of};
ghost use Rattle.ua_space.specs.Values.{variable_in};
ghost use Rattle.ua_read_write.specs.Writing.{judged, accepted_of, status_of, write_of};
ghost use Rattle.ua_views.specs.Views.{or_none};
ghost use Rattle.ua_services.specs.Write.{is_historizing as is_historizing_spec, history_with, dropped_by, stored_change, stored_judged, stored_written, for_store, with_accepted, with_judged, with_written, write_meaning};

use crate::caller::Caller;
use crate::operations::operations;
use crate::service::reply;
use crate::services::Services;
use crate::session_service::SessionService;
use crate::status_results::statuses_body;
use collections::Near;
use server_messages::{Served, Setting, Stored};
use std::alloc::{AllocError, Global};
use ua_history::History;
use ua_messages::type_ids;
use ua_read_write::{AcceptedValue, accepted};
use ua_service_messages::{WriteRequestView, WriteValueView};
use ua_space::{Node, NodeDetails};
use ua_types::{Copyable, DataValue, Listed, Moment, Refusal, Status};
use ua_views::ArrayView;

// Whether the values of this node are kept.
fn is_historizing(node: &Node) -> bool
    ensures { result ≡ is_historizing_spec (variable_in node.now.details) }
{
    match &node.details {
        NodeDetails::Variable(variable) => variable.historizing,
        _ => false,
    }
}

// Keeps a value of this node in its history, where its values are kept, and answers the time that falls out.
fn keep(
    alloc: Global,
    history: &mut History,
    node: &Node,
    value: &DataValue,
) -> Result<Option<Moment>, AllocError>
    ensures history { OnOk result (history.new ≡ history_with history.old node.now.id value.now (is_historizing_spec (variable_in node.now.details))) }
    ensures dropped { IfOk result (λ time. time ≡ dropped_by history.old node.now.id value.now (is_historizing_spec (variable_in node.now.details))) }
{
    if is_historizing(node) {
        history.keep(alloc, &node.id, value.copy(alloc)?)
    } else {
        Ok(None)
    }
}

// Notes a value of this node for a store.
fn note(
    alloc: Global,
    node: &Node,
    value: &DataValue,
    dropped: Option<Moment>,
    stored: &mut Listed<Stored>,
) -> Result<(), AllocError>
    ensures { OnOk result (stored.new ≡ stored.old ++ (record { node_id = node.now.id; value = value.now; is_historical = is_historizing_spec (variable_in node.now.details); dropped = dropped }) ∷ []) }
{
    stored.push(Stored {
        node_id: node.id.copy(alloc)?,
        value: value.copy(alloc)?,
        is_historical: is_historizing(node),
        dropped,
    })
}

// Shows a value that was accepted to the items that watch its variable, keeps it where the variable is historizing, notes it where
// there is a store, and stores it. So it is copied for those who queue or keep it, and moved into the variable.
fn put(
    services: &mut Services,
    has_store: bool,
    accepted: AcceptedValue,
    stored: &mut Listed<Stored>,
) -> Result<(), AllocError>
    requires { IsTakenIn services.old.space.nodes accepted.place accepted.value }
    ensures services { (id : NodeId) → place_of id services.old.space.nodes ≡ Some accepted.place → OnOk result (services.new ≡ with_accepted services.old (record { node_id = id; value = accepted.value })) }
    ensures stored { (id : NodeId) → place_of id services.old.space.nodes ≡ Some accepted.place →
        OnOk result (stored.new ≡ stored.old ++ for_store has_store (stored_change services.old.space.nodes services.old.history (record { node_id = id; value = accepted.value }) ∷ [])) }
{
    let alloc = services.allocator();
    let AcceptedValue { place, value } = accepted;
    let Some(node) = services.space.node_in_order(place) else {
        unreachable!();
    };
    services.items.show(&node.id, &value)?;
    let dropped = keep(alloc, &mut services.history, node, &value)?;
    if has_store {
        note(alloc, node, &value, dropped, stored)?;
    }
    services.space.set_value_in(place, value);
    Ok(())
}

// Does with one value what the service does, and answers its outcome. Where there is a store it is noted.
fn write_one<'a>(
    services: &mut Services,
    near: &mut Near,
    setting: &Setting,
    value: &WriteValueView<'a>,
    stored: &mut Listed<Stored>,
) -> Result<Status, AllocError>
    ensures services { OnOk result (services.new ≡ with_judged services.old (accepted_of setting.now.clock value.now (judged services.old.space.nodes value.now))) }
    ensures stored { OnOk result (stored.new ≡ stored.old ++ stored_judged setting.now.config.has_store services.old (accepted_of setting.now.clock value.now (judged services.old.space.nodes value.now))) }
    ensures status { IfOk result (λ status. status ≡ status_of (judged services.old.space.nodes value.now)) }
{
    match accepted(
        services.allocator(),
        &services.space,
        near,
        setting.clock,
        value,
    ) {
        Ok(accepted) => {
            put(services, setting.config.has_store, accepted, stored)?;
            Ok(Status::GOOD)
        }
        Err(Refusal::Service(status)) => Ok(status),
        Err(Refusal::Memory) => Err(AllocError),
        Err(Refusal::Exhausted) => unreachable!(),
    }
}

// Does with all values what the service does, one after the other, and answers their outcomes. Where there is a store they are noted.
fn write_all<'a>(
    services: &mut Services,
    setting: &Setting,
    values: ArrayView<'a, WriteValueView<'a>>,
    stored: &mut Listed<Stored>,
) -> Result<Vec<Status>, AllocError>
    ensures services { OnOk result (services.new ≡ with_written services.old (write_of setting.now.clock services.old.space.nodes (or_none values.entry))) }
    ensures stored { OnOk result (stored.new ≡ stored.old ++ stored_written setting.now.config.has_store services.old (write_of setting.now.clock services.old.space.nodes (or_none values.entry))) }
    ensures statuses { IfOk result (λ statuses. statuses.items ≡ (write_of setting.now.clock services.old.space.nodes (or_none values.entry)).statuses) }
    ensures count { IfOk result (λ statuses. length statuses.items ≡ length (or_none values.entry)) }
{
    let mut statuses = Vec::with_capacity(services.allocator(), values.len())?;
    let mut near = Near::new();
    for value in values {
        let status = write_one(services, &mut near, setting, &value, stored)?;
        statuses.push(status)?;
    }
    Ok(statuses)
}

/// Gives variables new values, one after the other, shows them to the items that watch them, and keeps those of variables
/// that are historizing. Where the configuration has a store, what it has to keep is told beside the reply.
///
/// The faults, in this order: `BAD_NOTHING_TO_DO` for a list that is null or empty,
/// `BAD_TOO_MANY_OPERATIONS` for one with more entries than the configuration's `operations`; then nothing is written. What is
/// wrong with one value is told in its result ([`ua_read_write::accepted`]). Where memory runs out, some of the
/// values were written, shown and kept, from the first on, and the server halts.
pub struct Write;

impl<'a> SessionService<'a> for Write {
    type Request = WriteRequestView<'a>;

    ghost meaning = { write_meaning };

    fn serve(
        setting: &Setting,
        caller: &Caller,
        _session: u32,
        request: WriteRequestView<'a>,
        services: &mut Services,
    ) -> Result<Served, Refusal> {
        let alloc = services.allocator();
        let values = operations(&setting.config, request.nodes_to_write)?;
        let mut stored = Listed::new(alloc);
        let statuses = write_all(services, setting, values, &mut stored)?;
        let type_id = type_ids::WRITE_RESPONSE;
        let body = statuses_body(alloc, type_id, setting, caller, &statuses)?;
        let mut served = reply(alloc, caller, body)?;
        served.stored = stored;
        Ok(served)
    }
}
