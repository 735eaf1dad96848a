//! Views beside the values that are taken from the same bytes.

use std::alloc::{AllocError, Global};
use std::fmt::Debug;
use ua_binary::Wire;
use ua_messages::{ReadValueIdView, RequestHeader, RequestHeaderView};
use ua_service_messages::{
    BrowseDescriptionView, BrowseNextRequest, BrowseNextRequestView, BrowseRequest,
    BrowseRequestView, HistoryReadRequest, HistoryReadRequestView, HistoryReadValueIdView,
    ReadRawModifiedDetails, ReadRequest, ReadRequestView, WriteRequest, WriteRequestView,
    WriteValueView,
};
use ua_types::{
    Array, ByteString, DataValue, Duration, ExpandedNodeId, ExtensionObject, LocalizedText, Moment,
    NodeId, QualifiedName, Status, Text, Variant,
};
use ua_views::{
    ArrayView, ByteStringView, DataValueView, ExpandedNodeIdView, ExtensionObjectView,
    LocalizedTextView, NodeIdView, QualifiedNameView, TextView, VariantView, View,
};

/// A view, and the value that it is a view of.
pub(crate) trait Viewed<'a>: View<'a> {
    type Value: Wire + Debug;

    /// A copy of that value.
    fn copied(self, alloc: Global) -> Result<Self::Value, AllocError>;
}

// Views with a copy of their own.

impl<'a> Viewed<'a> for TextView<'a> {
    type Value = Text;

    fn copied(self, alloc: Global) -> Result<Text, AllocError> {
        self.to_value(alloc)
    }
}

impl<'a> Viewed<'a> for ByteStringView<'a> {
    type Value = ByteString;

    fn copied(self, alloc: Global) -> Result<ByteString, AllocError> {
        self.to_value(alloc)
    }
}

impl<'a> Viewed<'a> for NodeIdView<'a> {
    type Value = NodeId;

    fn copied(self, alloc: Global) -> Result<NodeId, AllocError> {
        self.to_value(alloc)
    }
}

impl<'a> Viewed<'a> for ExpandedNodeIdView<'a> {
    type Value = ExpandedNodeId;

    fn copied(self, alloc: Global) -> Result<ExpandedNodeId, AllocError> {
        self.to_value(alloc)
    }
}

impl<'a> Viewed<'a> for QualifiedNameView<'a> {
    type Value = QualifiedName;

    fn copied(self, alloc: Global) -> Result<QualifiedName, AllocError> {
        self.to_value(alloc)
    }
}

impl<'a> Viewed<'a> for LocalizedTextView<'a> {
    type Value = LocalizedText;

    fn copied(self, alloc: Global) -> Result<LocalizedText, AllocError> {
        self.to_value(alloc)
    }
}

impl<'a> Viewed<'a> for ExtensionObjectView<'a> {
    type Value = ExtensionObject;

    fn copied(self, alloc: Global) -> Result<ExtensionObject, AllocError> {
        self.to_value(alloc)
    }
}

impl<'a> Viewed<'a> for VariantView<'a> {
    type Value = Variant;

    fn copied(self, alloc: Global) -> Result<Variant, AllocError> {
        self.to_value(alloc)
    }
}

impl<'a> Viewed<'a> for DataValueView<'a> {
    type Value = DataValue;

    fn copied(self, alloc: Global) -> Result<DataValue, AllocError> {
        self.to_value(alloc)
    }
}

impl<'a> Viewed<'a> for RequestHeaderView<'a> {
    type Value = RequestHeader;

    fn copied(self, alloc: Global) -> Result<RequestHeader, AllocError> {
        Ok(RequestHeader {
            authentication_token: self.authentication_token.copied(alloc)?,
            timestamp: self.timestamp,
            request_handle: self.request_handle,
            return_diagnostics: self.return_diagnostics,
            audit_entry_id: self.audit_entry_id.copied(alloc)?,
            timeout_hint: self.timeout_hint,
            additional_header: self.additional_header.copied(alloc)?,
        })
    }
}

impl<'a> Viewed<'a> for ReadValueIdView<'a> {
    type Value = ua_messages::ReadValueId;

    fn copied(self, alloc: Global) -> Result<ua_messages::ReadValueId, AllocError> {
        Ok(ua_messages::ReadValueId {
            node_id: self.node_id.copied(alloc)?,
            attribute_id: self.attribute_id,
            index_range: self.index_range.copied(alloc)?,
            data_encoding: self.data_encoding.copied(alloc)?,
        })
    }
}

impl<'a> Viewed<'a> for WriteValueView<'a> {
    type Value = ua_service_messages::WriteValue;

    fn copied(self, alloc: Global) -> Result<ua_service_messages::WriteValue, AllocError> {
        Ok(ua_service_messages::WriteValue {
            node_id: self.node_id.copied(alloc)?,
            attribute_id: self.attribute_id,
            index_range: self.index_range.copied(alloc)?,
            value: self.value.copied(alloc)?,
        })
    }
}

impl<'a> Viewed<'a> for BrowseDescriptionView<'a> {
    type Value = ua_service_messages::BrowseDescription;

    fn copied(self, alloc: Global) -> Result<ua_service_messages::BrowseDescription, AllocError> {
        Ok(ua_service_messages::BrowseDescription {
            node_id: self.node_id.copied(alloc)?,
            browse_direction: self.browse_direction,
            reference_type_id: self.reference_type_id.copied(alloc)?,
            include_subtypes: self.include_subtypes,
            node_class_mask: self.node_class_mask,
            result_mask: self.result_mask,
        })
    }
}

impl<'a> Viewed<'a> for HistoryReadValueIdView<'a> {
    type Value = ua_service_messages::HistoryReadValueId;

    fn copied(self, alloc: Global) -> Result<ua_service_messages::HistoryReadValueId, AllocError> {
        Ok(ua_service_messages::HistoryReadValueId {
            node_id: self.node_id.copied(alloc)?,
            index_range: self.index_range.copied(alloc)?,
            data_encoding: self.data_encoding.copied(alloc)?,
            continuation_point: self.continuation_point.copied(alloc)?,
        })
    }
}

// Values that are views themselves.

impl<'a> Viewed<'a> for bool {
    type Value = bool;

    fn copied(self, _alloc: Global) -> Result<bool, AllocError> {
        Ok(self)
    }
}

impl<'a> Viewed<'a> for u16 {
    type Value = u16;

    fn copied(self, _alloc: Global) -> Result<u16, AllocError> {
        Ok(self)
    }
}

impl<'a> Viewed<'a> for u32 {
    type Value = u32;

    fn copied(self, _alloc: Global) -> Result<u32, AllocError> {
        Ok(self)
    }
}

impl<'a> Viewed<'a> for Moment {
    type Value = Moment;

    fn copied(self, _alloc: Global) -> Result<Moment, AllocError> {
        Ok(self)
    }
}

impl<'a> Viewed<'a> for Status {
    type Value = Status;

    fn copied(self, _alloc: Global) -> Result<Status, AllocError> {
        Ok(self)
    }
}

impl<'a> Viewed<'a> for Duration {
    type Value = Duration;

    fn copied(self, _alloc: Global) -> Result<Duration, AllocError> {
        Ok(self)
    }
}

impl<'a> Viewed<'a> for ReadRawModifiedDetails {
    type Value = ReadRawModifiedDetails;

    fn copied(self, _alloc: Global) -> Result<ReadRawModifiedDetails, AllocError> {
        Ok(ReadRawModifiedDetails {
            is_read_modified: self.is_read_modified,
            start_time: self.start_time,
            end_time: self.end_time,
            num_values_per_node: self.num_values_per_node,
            return_bounds: self.return_bounds,
        })
    }
}

/// The list of copies of the elements, or null.
pub(crate) fn copies<'a, V: Viewed<'a>>(
    alloc: Global,
    list: ArrayView<'a, V>,
) -> Result<Array<V::Value>, AllocError> {
    if list.is_null() {
        return Ok(Array::null());
    }
    let mut values = Vec::with_capacity(alloc, list.len())?;
    for element in list {
        values.push(element.copied(alloc)?)?;
    }
    // It has no more than the view, which no proof says here.
    if values.len() >= 1 << 31 {
        return Err(AllocError);
    }
    Ok(Array::new(values))
}

impl<'a> Viewed<'a> for ReadRequestView<'a> {
    type Value = ReadRequest;

    fn copied(self, alloc: Global) -> Result<ReadRequest, AllocError> {
        Ok(ReadRequest {
            max_age: self.max_age,
            timestamps_to_return: self.timestamps_to_return,
            nodes_to_read: copies(alloc, self.nodes_to_read)?,
        })
    }
}

impl<'a> Viewed<'a> for WriteRequestView<'a> {
    type Value = WriteRequest;

    fn copied(self, alloc: Global) -> Result<WriteRequest, AllocError> {
        Ok(WriteRequest {
            nodes_to_write: copies(alloc, self.nodes_to_write)?,
        })
    }
}

impl<'a> Viewed<'a> for BrowseRequestView<'a> {
    type Value = BrowseRequest;

    fn copied(self, alloc: Global) -> Result<BrowseRequest, AllocError> {
        Ok(BrowseRequest {
            view_id: self.view_id.copied(alloc)?,
            view_timestamp: self.view_timestamp,
            view_version: self.view_version,
            requested_max_references_per_node: self.requested_max_references_per_node,
            nodes_to_browse: copies(alloc, self.nodes_to_browse)?,
        })
    }
}

impl<'a> Viewed<'a> for BrowseNextRequestView<'a> {
    type Value = BrowseNextRequest;

    fn copied(self, alloc: Global) -> Result<BrowseNextRequest, AllocError> {
        Ok(BrowseNextRequest {
            release_continuation_points: self.release_continuation_points,
            continuation_points: copies(alloc, self.continuation_points)?,
        })
    }
}

impl<'a> Viewed<'a> for HistoryReadRequestView<'a> {
    type Value = HistoryReadRequest;

    fn copied(self, alloc: Global) -> Result<HistoryReadRequest, AllocError> {
        Ok(HistoryReadRequest {
            history_read_details: self.history_read_details.copied(alloc)?,
            timestamps_to_return: self.timestamps_to_return,
            release_continuation_points: self.release_continuation_points,
            nodes_to_read: copies(alloc, self.nodes_to_read)?,
        })
    }
}
