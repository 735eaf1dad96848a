//! What holds of the numbers that the standard gives.

ghost use Rattle.std.specs.Prelude.{◌≡◌, pos};
ghost use Rattle.ua_service_messages.specs.declared.browsing.TheConstants.BrowseDescription as mask;
ghost use Rattle.ua_service_messages.specs.declared.browsing.TheConstants.BrowseDirection as direction;

/// Directions, and the bits of what a Browse answers, are those of the standard (IEC 62541-4, 7.5 and 5.8.2).
pub fn browsing_has_the_standards_numbers()
    ensures direction_forward { direction.FORWARD.0 ≡ pos 0 }
    ensures direction_inverse { direction.INVERSE.0 ≡ pos 1 }
    ensures direction_both { direction.BOTH.0 ≡ pos 2 }
    ensures mask_reference_type { mask.REFERENCE_TYPE ≡ 1 }
    ensures mask_is_forward { mask.IS_FORWARD ≡ 2 }
    ensures mask_node_class { mask.NODE_CLASS ≡ 4 }
    ensures mask_browse_name { mask.BROWSE_NAME ≡ 8 }
    ensures mask_display_name { mask.DISPLAY_NAME ≡ 16 }
    ensures mask_type_definition { mask.TYPE_DEFINITION ≡ 32 }
{}
