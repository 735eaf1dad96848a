//! An entry of the list `node`: the node, and the references that come with it.

ghost use Rattle.std.specs.Prelude.{◌≡◌, ◌≤◌, ◌||◌, true, codes, [], map, string_bytes, None, Err, IfErr, IfOk, IfSome};
ghost use Rattle.std.specs.List.{list_all, list_any};
ghost use Rattle.std.specs.Map.{keys_of as table_keys};
ghost use Rattle.std.specs.Str.{bytes_eq};
ghost use Rattle.toml.specs.Data.{as_table};
ghost use Rattle.toml.specs.View.{table_view, view};
ghost use Rattle.ua_space.specs.Variables.{is_of};
ghost use Rattle.ua_types.specs.declared.node_class.NodeClass.TheVariants as classes;
ghost use Rattle.ua_types.specs.Answers.{Gives};
ghost use Rattle.node_loader.specs.declared.fault.Cause.TheVariants as Cause;
ghost use Rattle.node_loader.specs.declared.fault.Cause.TheVariants.{Memory};
ghost use Rattle.node_loader.specs.Keys.{is_among, only, required_word};
ghost use Rattle.ua_types.specs.DataValues.{value_since};
ghost use Rattle.ua_types.specs.ValueTypes.{type_number};
ghost use Rattle.node_loader.specs.Node.{class_of, common_keys, keys_of, names_of, place_of, parent_triple, definition_triple, entry_from, type_at, rank_of, form_of, plain_kind, variable_with, variable_of, object_of, variable_node_of, object_type_of, variable_type_of, reference_type_of, data_type_of, kind_of, rest_of, node_of, entry_of};

use crate::fault::Cause;
use crate::ids::{id_at, id_if_any, id_or, standard_id};
use crate::keys::{
    boolean_at, is_one_of, number_at, required_text, required_word, text_or, text_or_null,
};
use crate::past::{Setting, history};
use crate::value::{Form, ranked_value, type_of};
use crate::version::Version;
use std::alloc::{AllocError, Global};
use toml::{Table, Value};
use ua_space::standard_ids::{
    BASE_DATA_VARIABLE_TYPE, BASE_OBJECT_TYPE, HAS_TYPE_DEFINITION, ORGANIZES,
};
use ua_space::{Node, NodeDetails, Part, Triple, ValueRank, Variable};
use ua_types::{
    Copyable, DataValue, Listed, LocalizedText, Moment, NodeClass, NodeId, NumberRange,
    QualifiedName, Text, ValueType, Variant,
};

// The class that a word names.
#[tactic(auto, unfolding(crate::specs::Node::class_of))]
fn class_of(word: &str) -> Result<NodeClass, Cause>
    ensures { result ≡ class_of word.now }
{
    if word == "Object" {
        return Ok(NodeClass::Object);
    }
    if word == "Variable" {
        return Ok(NodeClass::Variable);
    }
    if word == "ObjectType" {
        return Ok(NodeClass::ObjectType);
    }
    if word == "VariableType" {
        return Ok(NodeClass::VariableType);
    }
    if word == "ReferenceType" {
        return Ok(NodeClass::ReferenceType);
    }
    if word == "DataType" {
        return Ok(NodeClass::DataType);
    }
    Err(Cause::OutOfRange)
}

// Whether each node may have the key, whatever its class.
fn is_common(key: &str) -> bool
    ensures { result ≡ is_among (common_keys []) key.now }
{
    is_one_of(
        &[
            "id",
            "class",
            "name",
            "name_ns",
            "display",
            "description",
            "parent",
            "via",
        ],
        key,
    )
}

fn is_known(others: &[&str], key: &str) -> bool
    ensures { result ≡ is_among (common_keys (map (λ k. k.now) others.now)) key.now }
{
    is_common(key) || is_one_of(others, key)
}

fn all_known(others: &[&str], table: &Table) -> bool
    ensures { result ≡ list_all (λ key. is_among (common_keys (map (λ k. k.now) others.now)) (string_bytes key)) (table_keys table.now.entries) }
{
    table.keys().all(|key| is_known(others, key.as_str()))
}

// The part has no other keys than those that each node may have, and these.
#[tactic(auto, using(crate::proofs::Tables::all_keys_are))]
fn only_with(others: &[&str], table: &Table) -> Result<(), Cause>
    ensures { result ≡ only (common_keys (map (λ k. k.now) others.now)) (table_view table.now) }
{
    if all_known(others, table) {
        Ok(())
    } else {
        Err(Cause::UnknownKey)
    }
}

fn variable_known(version: Version, table: &Table) -> Result<(), Cause>
    ensures { result ≡ only (keys_of version classes.Variable) (table_view table.now) }
{
    match version {
        Version::One => only_with(
            &["definition", "type", "value", "access", "historizing"],
            table,
        ),
        Version::Two => only_with(
            &[
                "definition",
                "type",
                "list",
                "value",
                "access",
                "historizing",
                "history",
            ],
            table,
        ),
    }
}

fn variable_type_known(version: Version, table: &Table) -> Result<(), Cause>
    ensures { result ≡ only (keys_of version classes.VariableType) (table_view table.now) }
{
    match version {
        Version::One => only_with(&["type", "abstract"], table),
        Version::Two => only_with(&["type", "list", "abstract"], table),
    }
}

// The part has no other keys than those of its class.
fn known(version: Version, class: NodeClass, table: &Table) -> Result<(), Cause>
    ensures { result ≡ only (keys_of version class) (table_view table.now) }
{
    match class {
        NodeClass::Object => only_with(&["definition"], table),
        NodeClass::Variable => variable_known(version, table),
        NodeClass::ObjectType | NodeClass::DataType => only_with(&["abstract"], table),
        NodeClass::VariableType => variable_type_known(version, table),
        NodeClass::ReferenceType => only_with(&["abstract", "symmetric", "inverse"], table),
    }
}

// What a node is called.
#[derive(Drop)]
struct Names {
    browse_name: QualifiedName,
    display_name: LocalizedText,
    description: LocalizedText,
}

#[tactic(auto, unfolding(crate::specs::Node::names_of))]
fn names_in(alloc: Global, highest: u16, namespace: u16, table: &Table) -> Result<Names, Cause>
    requires { namespace ≤ highest }
    ensures { Gives Memory result (names_of highest namespace (table_view table.now)) }
{
    let name = required_text(table, "name")?;
    let served = NumberRange {
        least: 0,
        most: highest as u64,
    };
    let name_ns = number_at(table, "name_ns", namespace as u64, served)?;
    let display = text_or(alloc, table, "display", name)?;
    let description = text_or_null(alloc, table, "description")?;
    let name = Text::from_str(alloc, name)?;
    Ok(Names {
        browse_name: QualifiedName {
            namespace: name_ns as u16,
            name,
        },
        display_name: LocalizedText {
            locale: Text::null(),
            text: display,
        },
        description: LocalizedText {
            locale: Text::null(),
            text: description,
        },
    })
}

// Where a node hangs: its parent, if it has one, and the type of the reference from there.
#[derive(Drop)]
struct Place {
    parent: Option<NodeId>,
    via: NodeId,
}

#[tactic(auto, unfolding(crate::specs::Node::place_of))]
fn place_in(alloc: Global, highest: u16, table: &Table) -> Result<Place, Cause>
    ensures { Gives Memory result (place_of highest (table_view table.now)) }
{
    let parent = id_if_any(alloc, highest, table, "parent")?;
    let via = id_or(alloc, highest, table, "via", ORGANIZES)?;
    Ok(Place { parent, via })
}

// The attributes of a class, the type definition where the class has one, and the values from before.
#[derive(Drop)]
struct Kind {
    details: NodeDetails,
    definition: Option<NodeId>,
    history: Listed<DataValue>,
}

// A kind without values from before.
fn plain_kind(alloc: Global, details: NodeDetails, definition: Option<NodeId>) -> Kind
    ensures { result ≡ plain_kind details definition }
{
    Kind {
        details,
        definition,
        history: Listed::new(alloc),
    }
}

#[tactic(auto, unfolding(crate::specs::Node::type_at))]
fn type_at(table: &Table) -> Result<ValueType, Cause>
    ensures { result ≡ type_at (table_view table.now) }
{
    let word = required_word(table, "type")?;
    type_of(word)
}

// One value, or a list.
fn rank_of(is_list: bool) -> ValueRank
    ensures { result ≡ rank_of is_list }
{
    if is_list {
        ValueRank::List
    } else {
        ValueRank::Scalar
    }
}

#[tactic(auto, unfolding(crate::specs::Node::form_of))]
fn form_in(table: &Table) -> Result<Form, Cause>
    ensures { result ≡ form_of (table_view table.now) }
{
    let value_type = type_at(table)?;
    let is_list = boolean_at(table, "list")?;
    Ok(Form {
        value_type,
        rank: rank_of(is_list),
    })
}

// A variable with a value of its form, which is good since the start.
fn variable_with(
    form: Form,
    value: Variant,
    start: Moment,
    access: u64,
    historizing: bool,
) -> Variable
    requires typed { is_of (type_number form.value_type) form.rank value ≡ true }
    requires access { access ≤ 15 }
    ensures { result ≡ variable_with form value start access historizing }
{
    Variable {
        data_type: form.value_type.number(),
        value_rank: form.rank,
        value: DataValue::since(start, value),
        access: access as u8,
        historizing,
    }
}

// All four bits of an AccessLevel.
const ACCESS: NumberRange = NumberRange { least: 0, most: 15 };

#[tactic(auto, unfolding(crate::specs::Node::variable_of))]
fn variable_in(
    alloc: Global,
    setting: &Setting,
    form: Form,
    table: &Table,
) -> Result<Variable, Cause>
    ensures { Gives Memory result (variable_of setting.now form (table_view table.now)) }
{
    let value = ranked_value(alloc, form.value_type, form.rank, setting.highest, table)?;
    let access = number_at(table, "access", 1, ACCESS)?;
    let historizing = boolean_at(table, "historizing")?;
    Ok(variable_with(form, value, setting.start, access, historizing))
}

#[tactic(auto, unfolding(crate::specs::Node::object_of))]
fn object_in(alloc: Global, setting: &Setting, table: &Table) -> Result<Kind, Cause>
    ensures { Gives Memory result (object_of setting.now (table_view table.now)) }
{
    let definition = id_or(
        alloc,
        setting.highest,
        table,
        "definition",
        BASE_OBJECT_TYPE,
    )?;
    Ok(plain_kind(alloc, NodeDetails::Object, Some(definition)))
}

#[tactic(auto, unfolding(crate::specs::Node::variable_node_of))]
fn variable_node_in(alloc: Global, setting: &Setting, table: &Table) -> Result<Kind, Cause>
    ensures { Gives Memory result (variable_node_of setting.now (table_view table.now)) }
{
    let definition = id_or(
        alloc,
        setting.highest,
        table,
        "definition",
        BASE_DATA_VARIABLE_TYPE,
    )?;
    let form = form_in(table)?;
    let variable = variable_in(alloc, setting, form, table)?;
    let history = history(alloc, setting, form, variable.historizing, table)?;
    Ok(Kind {
        details: NodeDetails::Variable(variable),
        definition: Some(definition),
        history,
    })
}

#[tactic(auto, unfolding(crate::specs::Node::object_type_of))]
fn object_type_in(alloc: Global, table: &Table) -> Result<Kind, Cause>
    ensures { result ≡ object_type_of (table_view table.now) }
{
    let is_abstract = boolean_at(table, "abstract")?;
    Ok(plain_kind(alloc, NodeDetails::ObjectType { is_abstract }, None))
}

#[tactic(auto, unfolding(crate::specs::Node::variable_type_of))]
fn variable_type_in(alloc: Global, table: &Table) -> Result<Kind, Cause>
    ensures { result ≡ variable_type_of (table_view table.now) }
{
    let form = form_in(table)?;
    let is_abstract = boolean_at(table, "abstract")?;
    let details = NodeDetails::VariableType {
        data_type: form.value_type.number(),
        value_rank: form.rank,
        is_abstract,
    };
    Ok(plain_kind(alloc, details, None))
}

#[tactic(auto, unfolding(crate::specs::Node::reference_type_of))]
fn reference_type_in(alloc: Global, table: &Table) -> Result<Kind, Cause>
    ensures { Gives Memory result (reference_type_of (table_view table.now)) }
{
    let is_abstract = boolean_at(table, "abstract")?;
    let symmetric = boolean_at(table, "symmetric")?;
    let inverse = text_or_null(alloc, table, "inverse")?;
    let details = NodeDetails::ReferenceType {
        is_abstract,
        symmetric,
        inverse_name: LocalizedText {
            locale: Text::null(),
            text: inverse,
        },
    };
    Ok(plain_kind(alloc, details, None))
}

#[tactic(auto, unfolding(crate::specs::Node::data_type_of))]
fn data_type_in(alloc: Global, table: &Table) -> Result<Kind, Cause>
    ensures { result ≡ data_type_of (table_view table.now) }
{
    let is_abstract = boolean_at(table, "abstract")?;
    Ok(plain_kind(alloc, NodeDetails::DataType { is_abstract }, None))
}

// What the class has beside the names.
fn kind_in(alloc: Global, class: NodeClass, setting: &Setting, table: &Table) -> Result<Kind, Cause>
    ensures { Gives Memory result (kind_of class setting.now (table_view table.now)) }
{
    match class {
        NodeClass::Object => object_in(alloc, setting, table),
        NodeClass::Variable => variable_node_in(alloc, setting, table),
        NodeClass::ObjectType => object_type_in(alloc, table),
        NodeClass::VariableType => variable_type_in(alloc, table),
        NodeClass::ReferenceType => reference_type_in(alloc, table),
        NodeClass::DataType => data_type_in(alloc, table),
    }
}

/// A node of the file, with the references that come with it.
#[derive(Drop)]
pub(crate) struct Entry {
    pub node: Node,
    /// The reference from the parent.
    pub parent: Option<Triple>,
    /// The reference to the type definition.
    pub definition: Option<Triple>,
}

fn parent_triple(
    alloc: Global,
    part: Part,
    place: Place,
    id: &NodeId,
) -> Result<Option<Triple>, AllocError>
    ensures { IfOk result (λ t. t ≡ parent_triple part place id.now) }
{
    let Place { parent, via } = place;
    match parent {
        None => Ok(None),
        Some(parent) => Ok(Some(Triple {
            source: parent,
            reference_type: via,
            target: id.copy(alloc)?,
            part,
        })),
    }
}

fn definition_triple(
    alloc: Global,
    part: Part,
    definition: Option<NodeId>,
    id: &NodeId,
) -> Result<Option<Triple>, AllocError>
    ensures { IfOk result (λ t. t ≡ definition_triple part definition id.now) }
{
    match definition {
        None => Ok(None),
        Some(definition) => Ok(Some(Triple {
            source: id.copy(alloc)?,
            reference_type: standard_id(HAS_TYPE_DEFINITION),
            target: definition,
            part,
        })),
    }
}

// A node's id and its class, which are read before the rest.
#[derive(Drop)]
struct Head {
    id: NodeId,
    class: NodeClass,
}

// What follows them.
#[derive(Drop)]
struct Rest {
    names: Names,
    place: Place,
    kind: Kind,
}

// The entry of what was read.
fn entry_from(alloc: Global, part: Part, id: NodeId, rest: Rest) -> Result<Entry, AllocError>
    ensures { IfOk result (λ e. e ≡ entry_from part id rest.names rest.place rest.kind) }
{
    let Rest { names, place, kind } = rest;
    let parent = parent_triple(alloc, part, place, &id)?;
    let Kind {
        details,
        definition,
        history,
    } = kind;
    let definition = definition_triple(alloc, part, definition, &id)?;
    let Names {
        browse_name,
        display_name,
        description,
    } = names;
    Ok(Entry {
        node: Node {
            id,
            browse_name,
            display_name,
            description,
            details,
            history,
        },
        parent,
        definition,
    })
}

// What follows the head: first the unknown keys, and then the other keys one by one.
#[tactic(auto, unfolding(crate::specs::Node::rest_of))]
fn rest_in(
    alloc: Global,
    setting: &Setting,
    part: Part,
    head: Head,
    table: &Table,
) -> Result<Entry, Cause>
    requires { head.id.namespace ≤ setting.now.highest }
    ensures given { Gives Memory result (rest_of setting.now part head.id head.class (table_view table.now)) }
    ensures refused { IfErr (only (keys_of setting.now.version head.class) (table_view table.now)) (λ cause. result ≡ Err cause) }
{
    let Head { id, class } = head;
    known(setting.version, class, table)?;
    let names = names_in(alloc, setting.highest, id.namespace, table)?;
    let place = place_in(alloc, setting.highest, table)?;
    let kind = kind_in(alloc, class, setting, table)?;
    Ok(entry_from(alloc, part, id, Rest { names, place, kind })?)
}

// A node: its id and its class before the rest.
#[tactic(auto, unfolding(crate::specs::Node::node_of))]
fn node_in(alloc: Global, setting: &Setting, part: Part, table: &Table) -> Result<Entry, Cause>
    ensures given { Gives Memory result (node_of setting.now part (table_view table.now)) }
    ensures refused { IfErr (required_word (codes "id") (table_view table.now)) (λ cause. result ≡ Err cause) }
{
    let id = id_at(alloc, setting.highest, table, "id")?;
    let class = class_of(required_word(table, "class")?)?;
    rest_in(alloc, setting, part, Head { id, class }, table)
}

/// One entry of the list.
pub(crate) fn entry_at(
    alloc: Global,
    setting: &Setting,
    part: Part,
    value: &Value,
) -> Result<Entry, Cause>
    ensures given { Gives Memory result (entry_of setting.now part (as_table (view value.now))) }
    ensures refused { as_table (view value.now) ≡ None → result ≡ Err Cause.WrongKind }
    ensures id { IfSome (as_table (view value.now)) (λ ms. IfErr (required_word (codes "id") ms) (λ cause. result ≡ Err cause)) }
{
    match value.as_table() {
        Some(table) => node_in(alloc, setting, part, table),
        None => Err(Cause::WrongKind),
    }
}
