//! The keys of each part in the order in which they are judged, and what belongs at each (docs/NODE_FILE.md).

/// What a value is written as.
#[derive(Clone, Copy)]
pub(crate) enum Form {
    Table,
    List,
    Text,
    Truth,
    /// An integer from the least to the most.
    Integer,
    /// An integer from 0 to the highest namespace.
    Namespace,
    Id,
    /// A word for a class.
    Class,
    /// A word for a type.
    Type,
    /// The hex digits of eight bytes.
    Duration,
    Guid,
    Hex,
    /// A list of at most 100 texts.
    Texts,
    /// What the keys `type` and `list` say.
    Value,
    /// The list of what was before.
    History,
}

/// A key, and what belongs there.
#[derive(Clone, Copy)]
pub(crate) struct Rule {
    pub key: &'static str,
    pub is_required: bool,
    pub form: Form,
    pub least: i64,
    pub most: i64,
    /// The most in version 1, below 0 where that version doesn't have the key.
    pub first: i64,
}

/// A node file.
pub(crate) static FILE: [Rule; 4] = [
    Rule {
        key: "version",
        is_required: true,
        form: Form::Integer,
        least: 1,
        most: 2,
        first: 2,
    },
    Rule {
        key: "server",
        is_required: false,
        form: Form::Table,
        least: 0,
        most: 0,
        first: 0,
    },
    Rule {
        key: "node",
        is_required: false,
        form: Form::List,
        least: 0,
        most: 0,
        first: 0,
    },
    Rule {
        key: "reference",
        is_required: false,
        form: Form::List,
        least: 0,
        most: 0,
        first: 0,
    },
];

/// The table `server`.
pub(crate) static SERVER: [Rule; 28] = [
    Rule {
        key: "uri",
        is_required: false,
        form: Form::Text,
        least: 0,
        most: 0,
        first: 0,
    },
    Rule {
        key: "name",
        is_required: false,
        form: Form::Text,
        least: 0,
        most: 0,
        first: 0,
    },
    Rule {
        key: "url",
        is_required: false,
        form: Form::Text,
        least: 0,
        most: 0,
        first: 0,
    },
    Rule {
        key: "namespaces",
        is_required: false,
        form: Form::Texts,
        least: 0,
        most: 0,
        first: 0,
    },
    Rule {
        key: "start",
        is_required: false,
        form: Form::Integer,
        least: 0,
        most: i64::MAX,
        first: i64::MAX,
    },
    Rule {
        key: "receive_size",
        is_required: false,
        form: Form::Integer,
        least: 1_024,
        most: 1_048_576,
        first: 1_048_576,
    },
    Rule {
        key: "send_size",
        is_required: false,
        form: Form::Integer,
        least: 1_024,
        most: 1_048_576,
        first: 1_048_576,
    },
    Rule {
        key: "max_message",
        is_required: false,
        form: Form::Integer,
        least: 1_024,
        most: 16_777_216,
        first: 16_777_216,
    },
    Rule {
        key: "max_chunks",
        is_required: false,
        form: Form::Integer,
        least: 1,
        most: 65_535,
        first: 65_535,
    },
    Rule {
        key: "lifetime_ms",
        is_required: false,
        form: Form::Integer,
        least: 1,
        most: 4_294_967_295,
        first: 4_294_967_295,
    },
    Rule {
        key: "connections",
        is_required: false,
        form: Form::Integer,
        least: 1,
        most: 100_000,
        first: 10_000,
    },
    Rule {
        key: "sessions",
        is_required: false,
        form: Form::Integer,
        least: 1,
        most: 100_000,
        first: 10_000,
    },
    Rule {
        key: "subscriptions",
        is_required: false,
        form: Form::Integer,
        least: 1,
        most: 100_000,
        first: 100_000,
    },
    Rule {
        key: "items",
        is_required: false,
        form: Form::Integer,
        least: 1,
        most: 100_000,
        first: 100_000,
    },
    Rule {
        key: "queue",
        is_required: false,
        form: Form::Integer,
        least: 1,
        most: 1_000_000,
        first: 100_000,
    },
    Rule {
        key: "publish_queue",
        is_required: false,
        form: Form::Integer,
        least: 1,
        most: 100_000,
        first: 100_000,
    },
    Rule {
        key: "kept",
        is_required: false,
        form: Form::Integer,
        least: 1,
        most: 100_000,
        first: 100_000,
    },
    Rule {
        key: "notifications",
        is_required: false,
        form: Form::Integer,
        least: 1,
        most: 100_000,
        first: 100_000,
    },
    Rule {
        key: "points",
        is_required: false,
        form: Form::Integer,
        least: 1,
        most: 100_000,
        first: 100_000,
    },
    Rule {
        key: "references",
        is_required: false,
        form: Form::Integer,
        least: 1,
        most: 100_000,
        first: 100_000,
    },
    Rule {
        key: "operations",
        is_required: false,
        form: Form::Integer,
        least: 1,
        most: 100_000,
        first: 100_000,
    },
    Rule {
        key: "history_page",
        is_required: false,
        form: Form::Integer,
        least: 1,
        most: 100_000,
        first: 100_000,
    },
    Rule {
        key: "history",
        is_required: false,
        form: Form::Integer,
        least: 1,
        most: 10_000_000,
        first: 1_000_000,
    },
    Rule {
        key: "session_time",
        is_required: false,
        form: Form::Integer,
        least: 1,
        most: 1_000_000_000_000_000,
        first: 1_000_000_000_000_000,
    },
    Rule {
        key: "publish_time",
        is_required: false,
        form: Form::Integer,
        least: 1,
        most: 1_000_000_000_000_000,
        first: 1_000_000_000_000_000,
    },
    Rule {
        key: "session_duration",
        is_required: false,
        form: Form::Duration,
        least: 0,
        most: 0,
        first: 0,
    },
    Rule {
        key: "publish_duration",
        is_required: false,
        form: Form::Duration,
        least: 0,
        most: 0,
        first: 0,
    },
    Rule {
        key: "sampling_duration",
        is_required: false,
        form: Form::Duration,
        least: 0,
        most: 0,
        first: 0,
    },
];

/// A node of any class.
pub(crate) static NODE: [Rule; 8] = [
    Rule {
        key: "id",
        is_required: true,
        form: Form::Id,
        least: 0,
        most: 0,
        first: 0,
    },
    Rule {
        key: "class",
        is_required: true,
        form: Form::Class,
        least: 0,
        most: 0,
        first: 0,
    },
    Rule {
        key: "name",
        is_required: true,
        form: Form::Text,
        least: 0,
        most: 0,
        first: 0,
    },
    Rule {
        key: "name_ns",
        is_required: false,
        form: Form::Namespace,
        least: 0,
        most: 0,
        first: 0,
    },
    Rule {
        key: "display",
        is_required: false,
        form: Form::Text,
        least: 0,
        most: 0,
        first: 0,
    },
    Rule {
        key: "description",
        is_required: false,
        form: Form::Text,
        least: 0,
        most: 0,
        first: 0,
    },
    Rule {
        key: "parent",
        is_required: false,
        form: Form::Id,
        least: 0,
        most: 0,
        first: 0,
    },
    Rule {
        key: "via",
        is_required: false,
        form: Form::Id,
        least: 0,
        most: 0,
        first: 0,
    },
];

/// A node of class Object, beside those of any class.
pub(crate) static OBJECT: [Rule; 1] = [Rule {
    key: "definition",
    is_required: false,
    form: Form::Id,
    least: 0,
    most: 0,
    first: 0,
}];

/// A Variable.
pub(crate) static VARIABLE: [Rule; 7] = [
    Rule {
        key: "definition",
        is_required: false,
        form: Form::Id,
        least: 0,
        most: 0,
        first: 0,
    },
    Rule {
        key: "type",
        is_required: true,
        form: Form::Type,
        least: 0,
        most: 0,
        first: 0,
    },
    Rule {
        key: "list",
        is_required: false,
        form: Form::Truth,
        least: 0,
        most: 0,
        first: -1,
    },
    Rule {
        key: "value",
        is_required: true,
        form: Form::Value,
        least: 0,
        most: 0,
        first: 0,
    },
    Rule {
        key: "access",
        is_required: false,
        form: Form::Integer,
        least: 0,
        most: 15,
        first: 15,
    },
    Rule {
        key: "historizing",
        is_required: false,
        form: Form::Truth,
        least: 0,
        most: 0,
        first: 0,
    },
    Rule {
        key: "history",
        is_required: false,
        form: Form::History,
        least: 0,
        most: 0,
        first: -1,
    },
];

/// A VariableType.
pub(crate) static VARIABLE_TYPE: [Rule; 3] = [
    Rule {
        key: "type",
        is_required: true,
        form: Form::Type,
        least: 0,
        most: 0,
        first: 0,
    },
    Rule {
        key: "list",
        is_required: false,
        form: Form::Truth,
        least: 0,
        most: 0,
        first: -1,
    },
    Rule {
        key: "abstract",
        is_required: false,
        form: Form::Truth,
        least: 0,
        most: 0,
        first: 0,
    },
];

/// A ReferenceType.
pub(crate) static REFERENCE_TYPE: [Rule; 3] = [
    Rule {
        key: "abstract",
        is_required: false,
        form: Form::Truth,
        least: 0,
        most: 0,
        first: 0,
    },
    Rule {
        key: "symmetric",
        is_required: false,
        form: Form::Truth,
        least: 0,
        most: 0,
        first: 0,
    },
    Rule {
        key: "inverse",
        is_required: false,
        form: Form::Text,
        least: 0,
        most: 0,
        first: 0,
    },
];

/// An ObjectType or a DataType.
pub(crate) static OTHER: [Rule; 1] = [Rule {
    key: "abstract",
    is_required: false,
    form: Form::Truth,
    least: 0,
    most: 0,
    first: 0,
}];

/// An entry of `reference`.
pub(crate) static REFERENCE: [Rule; 3] = [
    Rule {
        key: "from",
        is_required: true,
        form: Form::Id,
        least: 0,
        most: 0,
        first: 0,
    },
    Rule {
        key: "type",
        is_required: true,
        form: Form::Id,
        least: 0,
        most: 0,
        first: 0,
    },
    Rule {
        key: "to",
        is_required: true,
        form: Form::Id,
        least: 0,
        most: 0,
        first: 0,
    },
];

/// An entry of a node's `history`.
pub(crate) static PAST: [Rule; 3] = [
    Rule {
        key: "time",
        is_required: true,
        form: Form::Integer,
        least: 1,
        most: i64::MAX,
        first: i64::MAX,
    },
    Rule {
        key: "value",
        is_required: true,
        form: Form::Value,
        least: 0,
        most: 0,
        first: 0,
    },
    Rule {
        key: "status",
        is_required: false,
        form: Form::Integer,
        least: 0,
        most: 4_294_967_295,
        first: 4_294_967_295,
    },
];

/// What values of each type are written as, by the type's word.
pub(crate) static TYPES: [Rule; 15] = [
    Rule {
        key: "Boolean",
        is_required: false,
        form: Form::Truth,
        least: 0,
        most: 0,
        first: 0,
    },
    Rule {
        key: "SByte",
        is_required: false,
        form: Form::Integer,
        least: -128,
        most: 127,
        first: 127,
    },
    Rule {
        key: "Byte",
        is_required: false,
        form: Form::Integer,
        least: 0,
        most: 255,
        first: 255,
    },
    Rule {
        key: "Int16",
        is_required: false,
        form: Form::Integer,
        least: -32_768,
        most: 32_767,
        first: 32_767,
    },
    Rule {
        key: "UInt16",
        is_required: false,
        form: Form::Integer,
        least: 0,
        most: 65_535,
        first: 65_535,
    },
    Rule {
        key: "Int32",
        is_required: false,
        form: Form::Integer,
        least: -2_147_483_648,
        most: 2_147_483_647,
        first: 2_147_483_647,
    },
    Rule {
        key: "UInt32",
        is_required: false,
        form: Form::Integer,
        least: 0,
        most: 4_294_967_295,
        first: 4_294_967_295,
    },
    Rule {
        key: "Int64",
        is_required: false,
        form: Form::Integer,
        least: i64::MIN,
        most: i64::MAX,
        first: i64::MAX,
    },
    Rule {
        key: "UInt64",
        is_required: false,
        form: Form::Integer,
        least: 0,
        most: i64::MAX,
        first: i64::MAX,
    },
    Rule {
        key: "String",
        is_required: false,
        form: Form::Text,
        least: 0,
        most: 0,
        first: 0,
    },
    Rule {
        key: "DateTime",
        is_required: false,
        form: Form::Integer,
        least: i64::MIN,
        most: i64::MAX,
        first: i64::MAX,
    },
    Rule {
        key: "Guid",
        is_required: false,
        form: Form::Guid,
        least: 0,
        most: 0,
        first: 0,
    },
    Rule {
        key: "ByteString",
        is_required: false,
        form: Form::Hex,
        least: 0,
        most: 0,
        first: 0,
    },
    Rule {
        key: "NodeId",
        is_required: false,
        form: Form::Id,
        least: 0,
        most: 0,
        first: 0,
    },
    Rule {
        key: "StatusCode",
        is_required: false,
        form: Form::Integer,
        least: 0,
        most: 4_294_967_295,
        first: 4_294_967_295,
    },
];

/// What an entry of a list of tables is.
pub(crate) static ENTRY: Rule = Rule {
    key: "",
    is_required: true,
    form: Form::Table,
    least: 0,
    most: 0,
    first: 0,
};

/// What an entry of a list of texts is.
pub(crate) static WORD: Rule = Rule {
    key: "",
    is_required: true,
    form: Form::Text,
    least: 0,
    most: 0,
    first: 0,
};

/// What a list of values is.
pub(crate) static VALUES: Rule = Rule {
    key: "value",
    is_required: true,
    form: Form::List,
    least: 0,
    most: 0,
    first: 0,
};
