//! The numbers, in namespace 0, of the ids of the nodes that every server has (IEC 62541-6, Annex A).

// Objects.

pub const ROOT: u32 = 84;

pub const OBJECTS: u32 = 85;

pub const TYPES: u32 = 86;

pub const VIEWS: u32 = 87;

pub const SERVER: u32 = 2253;

// Variables of the server.

pub const SERVER_ARRAY: u32 = 2254;

pub const NAMESPACE_ARRAY: u32 = 2255;

pub const SERVER_STATE: u32 = 2259;

// Types of objects and of variables.

pub const BASE_OBJECT_TYPE: u32 = 58;

pub const FOLDER_TYPE: u32 = 61;

pub const BASE_DATA_VARIABLE_TYPE: u32 = 63;

pub const PROPERTY_TYPE: u32 = 68;

// Types of references.

pub const REFERENCES: u32 = 31;

pub const NON_HIERARCHICAL_REFERENCES: u32 = 32;

pub const HIERARCHICAL_REFERENCES: u32 = 33;

pub const HAS_CHILD: u32 = 34;

pub const ORGANIZES: u32 = 35;

pub const HAS_TYPE_DEFINITION: u32 = 40;

pub const AGGREGATES: u32 = 44;

pub const HAS_SUBTYPE: u32 = 45;

pub const HAS_PROPERTY: u32 = 46;

pub const HAS_COMPONENT: u32 = 47;
