//! A whole node file.

ghost use Rattle.std.specs.Prelude.{◌≡◌, ◌++◌, ◌∷◌, [], codes, Err, IfErr, IfOk, OnOk};
ghost use Rattle.std.specs.Result.{result_map_both};
ghost use Rattle.toml.specs.Data.{get_member, no_members};
ghost use Rattle.toml.specs.View.{items_view, table_view};
ghost use Rattle.node_loader.specs.Lists.{after};
ghost use Rattle.node_loader.specs.File.{Loads, version_of, table_at, parts_of, setting_of, nodes_of, references_of, contents_of, meaning_of};
ghost use Rattle.node_loader.specs.Keys.{only};
ghost use Rattle.node_loader.specs.Node.{listed, triples_of};
ghost use Rattle.node_loader.specs.Server.{server_keys};
ghost use Rattle.ua_space.specs.declared.triple.Part.TheVariants as part;

use crate::fault::{Cause, LoadFault};
use crate::keys::{list_at, only, value_at};
use crate::node::{Entry, entry_at};
use crate::past::Setting;
use crate::reference::reference;
use crate::server::server;
use crate::version::Version;
use std::alloc::{AllocError, AllocFailed, Global};
use toml::{Table, Value};
use ua_space::{Node, Part, Triple};
use ua_types::{Config, Listed};

fn version(table: &Table) -> Result<Version, Cause>
    ensures { result ≡ version_of (get_member (codes "version") (table_view table.now)) }
{
    match value_at(table, "version") {
        None => Err(Cause::Version),
        Some(value) => match value.as_integer() {
            Some(1) => Ok(Version::One),
            Some(2) => Ok(Version::Two),
            _ => Err(Cause::Version),
        },
    }
}

// A table, the empty one where the key is absent.
#[tactic(auto, unfolding(crate::specs::File::table_at))]
fn table_at<'a>(table: &'a Table, key: &str, empty: &'a Table) -> Result<&'a Table, Cause>
    requires { table_view empty.now ≡ no_members }
    ensures { result_map_both (λ t. table_view t.now) (λ cause. cause) result ≡ table_at key.now (table_view table.now) }
{
    let Some(value) = value_at(table, key) else {
        return Ok(empty);
    };
    match value.as_table() {
        Some(found) => Ok(found),
        None => Err(Cause::WrongKind),
    }
}

// The version, the table `server` and the lists `node` and `reference`.
#[tactic(auto, unfolding(crate::specs::File::parts_of))]
fn parts<'a>(
    table: &'a Table,
    empty: &'a Table,
) -> Result<(Version, &'a Table, &'a [Value], &'a [Value]), Cause>
    requires { table_view empty.now ≡ no_members }
    ensures { result_map_both (λ p. record { version = p.0; server = table_view p.1.now; nodes = items_view p.2.now; references = items_view p.3.now }) (λ cause. cause) result ≡ parts_of (table_view table.now) }
{
    only(&["version", "server", "node", "reference"], table)?;
    let version = version(table)?;
    let server = table_at(table, "server", empty)?;
    let nodes = list_at(table, "node")?;
    let references = list_at(table, "reference")?;
    Ok((version, server, nodes, references))
}

// Besides the namespaces 0 and 1 there are those of the configuration.
fn setting_of(version: Version, config: &Config) -> Setting
    ensures { result ≡ setting_of version config.now }
{
    let more = match config.namespaces.as_slice() {
        None => 0,
        Some(namespaces) => namespaces.len(),
    };
    Setting {
        version,
        highest: 1 + more as u16,
        start: config.start,
        history: config.history,
    }
}

// Adds a reference, if there is one.
fn push_if(triples: &mut Vec<Triple>, triple: Option<Triple>) -> Result<(), AllocError>
    ensures { OnOk result (triples.new.items ≡ triples.old.items ++ listed triple) }
{
    match triple {
        None => Ok(()),
        Some(triple) => match triples.push(triple) {
            Ok(()) => Ok(()),
            Err(e) => Err(AllocError::from(e)),
        },
    }
}

fn keep(nodes: &mut Vec<Node>, triples: &mut Vec<Triple>, entry: Entry) -> Result<(), AllocError>
    ensures nodes { OnOk result (nodes.new.items ≡ nodes.old.items ++ entry.node ∷ []) }
    ensures triples { OnOk result (triples.new.items ≡ triples.old.items ++ triples_of entry) }
{
    let Entry {
        node,
        parent,
        definition,
    } = entry;
    match nodes.push(node) {
        Ok(()) => {}
        Err(e) => return Err(AllocError::from(e)),
    }
    push_if(triples, parent)?;
    push_if(triples, definition)
}

// The nodes of the list, and the references that come with them.
fn nodes(
    alloc: Global,
    setting: &Setting,
    values: &[Value],
) -> Result<(Vec<Node>, Vec<Triple>), LoadFault>
    ensures { Loads (λ p. (p.0.items, p.1.items)) result (nodes_of setting.now (items_view values.now)) }
{
    let mut nodes = Vec::new(alloc);
    let mut triples = Vec::new(alloc);
    for (place, value) in values.iter().enumerate() {
        let part = Part::Node(place as u64 + 1);
        match entry_at(alloc, setting, part, value) {
            Ok(entry) => keep(&mut nodes, &mut triples, entry)?,
            Err(cause) => return Err(LoadFault { cause, part }),
        }
    }
    Ok((nodes, triples))
}

// The references of the list, behind those that are there.
fn with_references(
    alloc: Global,
    triples: Vec<Triple>,
    highest: u16,
    values: &[Value],
) -> Result<Vec<Triple>, LoadFault>
    ensures { Loads (λ ts. ts.items) result (after triples.items (references_of highest (items_view values.now))) }
{
    let mut all = triples;
    for (place, value) in values.iter().enumerate() {
        let part = Part::Reference(place as u64 + 1);
        match reference(alloc, highest, part, value) {
            Ok(triple) => all.push(triple)?,
            Err(cause) => return Err(LoadFault { cause, part }),
        }
    }
    Ok(all)
}

/// What a node file says, ready for the address space to be built of it.
#[derive(Debug, Drop)]
pub struct Loaded {
    pub config: Config,

    /// The nodes of the file, in its order.
    pub nodes: Listed<Node>,

    /// The references: first those that come with the nodes, node by node, from the parent and then
    /// to the type definition, and then those of the list `reference`. Each has the part that
    /// declares it.
    pub triples: Listed<Triple>,
}

#[tactic(auto, unfolding(crate::specs::File::contents_of))]
fn contents(alloc: Global, table: &Table) -> Result<Loaded, LoadFault>
    ensures given { Loads (λ l. l) result (contents_of (table_view table.now)) }
    ensures refused { IfErr (parts_of (table_view table.now)) (λ cause. result ≡ Err (record { cause = cause; part = part.File })) }
    ensures keys { IfOk (parts_of (table_view table.now)) (λ parts. IfErr (only server_keys parts.server) (λ cause. result ≡ Err (record { cause = cause; part = part.Server }))) }
{
    let empty = Table::new(alloc);
    let (version, server_table, node_list, reference_list) = match parts(table, &empty) {
        Ok(parts) => parts,
        Err(cause) => {
            return Err(LoadFault {
                cause,
                part: Part::File,
            });
        }
    };
    let config = match server(alloc, version, server_table) {
        Ok(config) => config,
        Err(cause) => {
            return Err(LoadFault {
                cause,
                part: Part::Server,
            });
        }
    };
    let setting = setting_of(version, &config);
    let (nodes, own) = nodes(alloc, &setting, node_list)?;
    let triples = with_references(alloc, own, setting.highest, reference_list)?;
    Ok(Loaded {
        config,
        nodes: Listed::from_vec(nodes),
        triples: Listed::from_vec(triples),
    })
}

/// What the text of a node file means, or its first fault. The fault `Memory`, at any part, comes
/// only where an allocation failed. Once the text is parsed, the version, the file's own keys, the
/// kinds of its parts and the keys of `server` are judged before anything else grows.
pub fn load(alloc: Global, text: &str) -> Result<Loaded, LoadFault>
    ensures { Loads (λ l. l) result (meaning_of text.now) }
{
    match toml::table_from_str(alloc, text) {
        Ok(table) => contents(alloc, &table),
        Err(error) if error.is_memory() => Err(LoadFault::from(AllocError)),
        Err(_) => Err(LoadFault {
            cause: Cause::Toml,
            part: Part::File,
        }),
    }
}
