//! What holds of the numbers that the standard gives.

ghost use Rattle.std.specs.Prelude.{◌≡◌, pos};
ghost use Rattle.ua_subscription_messages.specs.declared.enumerations.TheConstants.DataChangeTrigger as trigger;
ghost use Rattle.ua_subscription_messages.specs.declared.enumerations.TheConstants.MonitoringMode as mode;

/// Modes and triggers have the numbers of the standard (IEC 62541-4, 7.18 and 7.17.2).
pub fn monitoring_has_the_standards_numbers()
    ensures mode_disabled { mode.DISABLED.0 ≡ pos 0 }
    ensures mode_sampling { mode.SAMPLING.0 ≡ pos 1 }
    ensures mode_reporting { mode.REPORTING.0 ≡ pos 2 }
    ensures trigger_status { trigger.STATUS.0 ≡ pos 0 }
    ensures trigger_status_value { trigger.STATUS_VALUE.0 ≡ pos 1 }
    ensures trigger_status_value_timestamp { trigger.STATUS_VALUE_TIMESTAMP.0 ≡ pos 2 }
{}
