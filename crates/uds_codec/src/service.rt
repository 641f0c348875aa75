//! The services and the codes that have a meaning of their own, by the names of ISO 14229-1.

ghost use Rattle.std.specs.Prelude.{◌≡◌};
ghost use Rattle.uds_codec.specs.Request.{is_service};

/// Diagnostic and communication management: which session is on.
pub const DIAGNOSTIC_SESSION_CONTROL: u8 = 0x10;

pub const ECU_RESET: u8 = 0x11;

pub const READ_DATA_BY_IDENTIFIER: u8 = 0x22;

pub const SECURITY_ACCESS: u8 = 0x27;

pub const COMMUNICATION_CONTROL: u8 = 0x28;

pub const ROUTINE_CONTROL: u8 = 0x31;

pub const REQUEST_DOWNLOAD: u8 = 0x34;

pub const REQUEST_UPLOAD: u8 = 0x35;

pub const TRANSFER_DATA: u8 = 0x36;

pub const REQUEST_TRANSFER_EXIT: u8 = 0x37;

pub const CONTROL_DTC_SETTING: u8 = 0x85;

/// The session in which a unit is programmed (programmingSession).
pub const PROGRAMMING_SESSION: u8 = 0x02;

/// The routine that erases a range (eraseMemory).
pub const ERASE_MEMORY: u16 = 0xff00;

/// The routine that checks the whole (checkProgrammingDependencies).
pub const CHECK_PROGRAMMING_DEPENDENCIES: u16 = 0xff01;

/// A positive answer begins with the request's service and this more.
pub const POSITIVE_RESPONSE: u8 = 0x40;
/// A negative answer begins with this byte.
pub const NEGATIVE_RESPONSE: u8 = 0x7f;

/// The table of services: what stands for each.
macro_rules! by_service {
    ($sid:expr;
        session: $session:expr,
        reset: $reset:expr,
        read_id: $read_id:expr,
        security: $security:expr,
        messages: $messages:expr,
        routine: $routine:expr,
        download: $download:expr,
        upload: $upload:expr,
        transfer: $transfer:expr,
        exit: $exit:expr,
        setting: $setting:expr;
        $other:expr) => {
        match $sid {
            $crate::service::DIAGNOSTIC_SESSION_CONTROL => $session,
            $crate::service::ECU_RESET => $reset,
            $crate::service::READ_DATA_BY_IDENTIFIER => $read_id,
            $crate::service::SECURITY_ACCESS => $security,
            $crate::service::COMMUNICATION_CONTROL => $messages,
            $crate::service::ROUTINE_CONTROL => $routine,
            $crate::service::REQUEST_DOWNLOAD => $download,
            $crate::service::REQUEST_UPLOAD => $upload,
            $crate::service::TRANSFER_DATA => $transfer,
            $crate::service::REQUEST_TRANSFER_EXIT => $exit,
            $crate::service::CONTROL_DTC_SETTING => $setting,
            _ => $other,
        }
    };
}

pub(crate) use by_service;

/// Whether a service of the table has this first byte.
pub(crate) fn is_listed(sid: u8) -> bool
    ensures { result ≡ is_service sid }
{
    by_service!(sid;
        session: true,
        reset: true,
        read_id: true,
        security: true,
        messages: true,
        routine: true,
        download: true,
        upload: true,
        transfer: true,
        exit: true,
        setting: true;
        false)
}
