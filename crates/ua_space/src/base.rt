//! The base set: the nodes and references that every server has.

ghost use Rattle.std.specs.Prelude.{◌≡◌, ◌≤◌, ◌<◌, ◌^◌, ◌++◌, ◌∷◌, [], length, map, IfOk, OnOk, true, vec_len};
ghost use Rattle.std.specs.List.{All};
ghost use Rattle.ua_space.specs.BaseNodes.{standard_node, readable, details_of, server_array, namespaces, namespace_array, state, base_nodes, base_triple, base_triples, base_objects, base_variables, base_object_types, base_variable_types, base_reference_types};
ghost use Rattle.ua_space.specs.Spaces.{most_triples};
ghost use Rattle.ua_space.specs.Variables.{is_of};
ghost use Rattle.ua_types.specs.DataValues.{value_since};
ghost use Rattle.ua_types.specs.declared.content.Content.TheVariants as content;
ghost use Rattle.ua_types.specs.declared.variant.Variant.TheVariants as variants;

use crate::node::{Node, NodeDetails, ValueRank, Variable};
use crate::standard_ids::{
    AGGREGATES, BASE_DATA_VARIABLE_TYPE, BASE_OBJECT_TYPE, FOLDER_TYPE, HAS_CHILD, HAS_COMPONENT,
    HAS_PROPERTY, HAS_SUBTYPE, HAS_TYPE_DEFINITION, HIERARCHICAL_REFERENCES, NAMESPACE_ARRAY,
    NON_HIERARCHICAL_REFERENCES, OBJECTS, ORGANIZES, PROPERTY_TYPE, REFERENCES, ROOT, SERVER,
    SERVER_ARRAY, SERVER_STATE, TYPES, VIEWS,
};
use crate::triple::{Part, Triple};
use std::alloc::{AllocError, Global};
use ua_types::{
    Config, Content, Copyable, DataValue, Listed, LocalizedText, Moment, NodeId, QualifiedName,
    SharedList, Status, Text, Variant,
};

// A node of namespace 0 that is displayed by its name, with no history.
fn standard_node(
    alloc: Global,
    number: u32,
    name: &str,
    details: NodeDetails,
) -> Result<Node, AllocError>
    requires { length name.now < 2 ^ 31 }
    ensures { IfOk result (λ node. node ≡ standard_node number name.now details) }
{
    Ok(Node {
        id: NodeId::numeric(0, number),
        browse_name: QualifiedName {
            namespace: 0,
            name: Text::from_str(alloc, name)?,
        },
        display_name: LocalizedText {
            locale: Text::null(),
            text: Text::from_str(alloc, name)?,
        },
        description: LocalizedText {
            locale: Text::null(),
            text: Text::null(),
        },
        details,
        history: Listed::new(alloc),
    })
}

// What nodes of the base set have alike.
#[derive(Clone, Copy)]
enum Kind {
    Object,
    ObjectType,
    VariableType,
    ReferenceType,
}

// Types aren't abstract; a variable of a type has a text; a reference is asymmetric and has no inverse
// name.
fn details_of(kind: Kind) -> NodeDetails
    ensures { result ≡ details_of kind }
{
    match kind {
        Kind::Object => NodeDetails::Object,
        Kind::ObjectType => NodeDetails::ObjectType { is_abstract: false },
        Kind::VariableType => NodeDetails::VariableType {
            data_type: 12,
            value_rank: ValueRank::Scalar,
            is_abstract: false,
        },
        Kind::ReferenceType => NodeDetails::ReferenceType {
            is_abstract: false,
            symmetric: false,
            inverse_name: LocalizedText {
                locale: Text::null(),
                text: Text::null(),
            },
        },
    }
}

// Appends a node of this kind for each number and name.
fn add_all(
    alloc: Global,
    nodes: &mut Vec<Node>,
    names: &[(u32, &str)],
    kind: Kind,
) -> Result<(), AllocError>
    requires { All (λ e. length e.1.now < 2 ^ 31) names.now }
    ensures { OnOk result (nodes.new.items
        ≡ nodes.old.items ++ map (λ e. standard_node e.0 e.1.now (details_of kind)) names.now) }
{
    for (number, name) in names {
        nodes.push(standard_node(alloc, *number, name, details_of(kind))?)?;
    }
    Ok(())
}

// A variable that may be read, with a value that is good since the start.
fn readable(data_type: u8, value_rank: ValueRank, start: Moment, value: Variant) -> NodeDetails
    requires lowest { 1 ≤ data_type }
    requires highest { data_type ≤ 22 }
    requires taken { is_of data_type value_rank value ≡ true }
    ensures { result ≡ readable data_type value_rank (value_since start value) }
{
    NodeDetails::Variable(Variable {
        data_type,
        value_rank,
        value: DataValue::since(start, value),
        access: 1,
        historizing: false,
    })
}

// References of the base from their types, sources and targets, and room for more.
fn triples_of(
    alloc: Global,
    table: &[(u32, u32, u32)],
    more: usize,
) -> Result<Vec<Triple>, AllocError>
    requires table { length table.now < 100 }
    requires more { more < most_triples }
    ensures items { IfOk result (λ triples. triples.items ≡ map base_triple table.now) }
    ensures len { IfOk result (λ triples. vec_len triples ≡ length table.now) }
{
    let mut triples = Vec::with_capacity(alloc, table.len() + more)?;
    for (reference_type, source, target) in table {
        triples.push(Triple {
            source: NodeId::numeric(0, *source),
            reference_type: NodeId::numeric(0, *reference_type),
            target: NodeId::numeric(0, *target),
            part: Part::File,
        })?;
    }
    Ok(triples)
}

/// How many nodes the base set has.
pub(crate) const NODES: usize = 22;

/// The base set's references: their types, sources and targets.
pub(crate) const TRIPLES: [(u32, u32, u32); 29] = [
    (ORGANIZES, ROOT, OBJECTS),
    (ORGANIZES, ROOT, TYPES),
    (ORGANIZES, ROOT, VIEWS),
    (ORGANIZES, OBJECTS, SERVER),
    (HAS_PROPERTY, SERVER, SERVER_ARRAY),
    (HAS_PROPERTY, SERVER, NAMESPACE_ARRAY),
    (HAS_COMPONENT, SERVER, SERVER_STATE),
    (ORGANIZES, TYPES, BASE_OBJECT_TYPE),
    (ORGANIZES, TYPES, BASE_DATA_VARIABLE_TYPE),
    (ORGANIZES, TYPES, PROPERTY_TYPE),
    (ORGANIZES, TYPES, REFERENCES),
    (HAS_SUBTYPE, BASE_OBJECT_TYPE, FOLDER_TYPE),
    (HAS_SUBTYPE, REFERENCES, NON_HIERARCHICAL_REFERENCES),
    (HAS_SUBTYPE, REFERENCES, HIERARCHICAL_REFERENCES),
    (HAS_SUBTYPE, HIERARCHICAL_REFERENCES, HAS_CHILD),
    (HAS_SUBTYPE, HIERARCHICAL_REFERENCES, ORGANIZES),
    (HAS_SUBTYPE, HAS_CHILD, AGGREGATES),
    (HAS_SUBTYPE, HAS_CHILD, HAS_SUBTYPE),
    (HAS_SUBTYPE, AGGREGATES, HAS_PROPERTY),
    (HAS_SUBTYPE, AGGREGATES, HAS_COMPONENT),
    (
        HAS_SUBTYPE,
        NON_HIERARCHICAL_REFERENCES,
        HAS_TYPE_DEFINITION,
    ),
    (HAS_TYPE_DEFINITION, ROOT, FOLDER_TYPE),
    (HAS_TYPE_DEFINITION, OBJECTS, FOLDER_TYPE),
    (HAS_TYPE_DEFINITION, TYPES, FOLDER_TYPE),
    (HAS_TYPE_DEFINITION, VIEWS, FOLDER_TYPE),
    (HAS_TYPE_DEFINITION, SERVER, BASE_OBJECT_TYPE),
    (HAS_TYPE_DEFINITION, SERVER_ARRAY, PROPERTY_TYPE),
    (HAS_TYPE_DEFINITION, NAMESPACE_ARRAY, PROPERTY_TYPE),
    (HAS_TYPE_DEFINITION, SERVER_STATE, BASE_DATA_VARIABLE_TYPE),
];

/// The base references, and room for more.
#[tactic(auto, unfolding(crate::specs::BaseNodes::base_triples))]
pub(crate) fn base_triples(alloc: Global, more: usize) -> Result<Vec<Triple>, AllocError>
    requires { more < most_triples }
    ensures items { IfOk result (λ triples. triples.items ≡ base_triples) }
    ensures len { IfOk result (λ triples. vec_len triples ≡ 29) }
{
    triples_of(alloc, &TRIPLES, more)
}

// Appends copies of these texts.
fn add_copies(alloc: Global, texts: &mut Vec<Text>, more: &[Text]) -> Result<(), AllocError>
    ensures { OnOk result (texts.new.items ≡ texts.old.items ++ more.now) }
{
    for text in more {
        texts.push(text.copy(alloc)?)?;
    }
    Ok(())
}

fn add_objects(alloc: Global, nodes: &mut Vec<Node>) -> Result<(), AllocError>
    ensures { OnOk result (nodes.new.items ≡ nodes.old.items ++ base_objects) }
{
    let names = [
        (ROOT, "Root"),
        (OBJECTS, "Objects"),
        (TYPES, "Types"),
        (VIEWS, "Views"),
        (SERVER, "Server"),
    ];
    add_all(alloc, nodes, &names, Kind::Object)
}

fn add_object_types(alloc: Global, nodes: &mut Vec<Node>) -> Result<(), AllocError>
    ensures { OnOk result (nodes.new.items ≡ nodes.old.items ++ base_object_types) }
{
    let names = [
        (BASE_OBJECT_TYPE, "BaseObjectType"),
        (FOLDER_TYPE, "FolderType"),
    ];
    add_all(alloc, nodes, &names, Kind::ObjectType)
}

fn add_variable_types(alloc: Global, nodes: &mut Vec<Node>) -> Result<(), AllocError>
    ensures { OnOk result (nodes.new.items ≡ nodes.old.items ++ base_variable_types) }
{
    let names = [
        (BASE_DATA_VARIABLE_TYPE, "BaseDataVariableType"),
        (PROPERTY_TYPE, "PropertyType"),
    ];
    add_all(alloc, nodes, &names, Kind::VariableType)
}

fn add_reference_types(alloc: Global, nodes: &mut Vec<Node>) -> Result<(), AllocError>
    ensures { OnOk result (nodes.new.items ≡ nodes.old.items ++ base_reference_types) }
{
    let names = [
        (REFERENCES, "References"),
        (NON_HIERARCHICAL_REFERENCES, "NonHierarchicalReferences"),
        (HIERARCHICAL_REFERENCES, "HierarchicalReferences"),
        (HAS_CHILD, "HasChild"),
        (ORGANIZES, "Organizes"),
        (AGGREGATES, "Aggregates"),
        (HAS_SUBTYPE, "HasSubtype"),
        (HAS_PROPERTY, "HasProperty"),
        (HAS_COMPONENT, "HasComponent"),
        (HAS_TYPE_DEFINITION, "HasTypeDefinition"),
    ];
    add_all(alloc, nodes, &names, Kind::ReferenceType)
}

fn list(texts: Vec<Text>) -> Result<Variant, AllocError>
    requires { vec_len texts < 2 ^ 31 }
    ensures { IfOk result (λ value. value ≡ variants.String (content.Array (Some texts.items))) }
{
    let texts = SharedList::new(texts)?;
    Ok(Variant::String(Content::Array(texts)))
}

#[tactic(auto, unfolding(crate::specs::Variables::has_rank))]
fn server_array(alloc: Global, config: &Config) -> Result<NodeDetails, AllocError>
    ensures { IfOk result (λ details. details ≡ server_array config.now) }
{
    let mut texts = Vec::new(alloc);
    texts.push(config.uri.copy(alloc)?)?;
    Ok(readable(12, ValueRank::List, config.start, list(texts)?))
}

fn namespaces(alloc: Global, config: &Config) -> Result<Vec<Text>, AllocError>
    ensures items { IfOk result (λ texts. texts.items ≡ namespaces config.now) }
    ensures len { IfOk result (λ texts. vec_len texts < 2 ^ 31) }
{
    let mut texts = Vec::new(alloc);
    texts.push(Text::from_str(alloc, "http://opcfoundation.org/UA/")?)?;
    texts.push(config.uri.copy(alloc)?)?;
    if let Some(more) = config.namespaces.as_slice() {
        add_copies(alloc, &mut texts, more)?;
    }
    Ok(texts)
}

#[tactic(auto, unfolding(crate::specs::Variables::has_rank))]
fn namespace_array(alloc: Global, config: &Config) -> Result<NodeDetails, AllocError>
    ensures { IfOk result (λ details. details ≡ namespace_array config.now) }
{
    let texts = namespaces(alloc, config)?;
    Ok(readable(12, ValueRank::List, config.start, list(texts)?))
}

#[tactic(auto, unfolding(crate::specs::Variables::has_rank))]
fn state(config: &Config) -> NodeDetails
    ensures { result ≡ state config.now }
{
    readable(
        6,
        ValueRank::Scalar,
        config.start,
        Variant::Int32(Content::Scalar(0)),
    )
}

fn add_variables(alloc: Global, nodes: &mut Vec<Node>, config: &Config) -> Result<(), AllocError>
    ensures { OnOk result (nodes.new.items ≡ nodes.old.items ++ base_variables config.now) }
{
    let servers = standard_node(
        alloc,
        SERVER_ARRAY,
        "ServerArray",
        server_array(alloc, config)?,
    )?;
    let spaces = standard_node(
        alloc,
        NAMESPACE_ARRAY,
        "NamespaceArray",
        namespace_array(alloc, config)?,
    )?;
    let state = standard_node(alloc, SERVER_STATE, "State", state(config))?;
    nodes.push(servers)?;
    nodes.push(spaces)?;
    nodes.push(state)?;
    Ok(())
}

/// The base nodes.
#[tactic(auto, unfolding(crate::specs::BaseNodes::base_nodes))]
pub(crate) fn base_nodes(alloc: Global, config: &Config) -> Result<Vec<Node>, AllocError>
    ensures items { IfOk result (λ nodes. nodes.items ≡ base_nodes config.now) }
    ensures len { IfOk result (λ nodes. vec_len nodes ≡ 22) }
{
    let mut nodes = Vec::with_capacity(alloc, NODES)?;
    add_objects(alloc, &mut nodes)?;
    add_variables(alloc, &mut nodes, config)?;
    add_object_types(alloc, &mut nodes)?;
    add_variable_types(alloc, &mut nodes)?;
    add_reference_types(alloc, &mut nodes)?;
    Ok(nodes)
}
