//! The negative response codes of the table, by their names in ISO 14229-1, annex A.

ghost use Rattle.std.specs.Prelude.{◌≡◌};
ghost use Rattle.uds_codec.specs.Answer.{is_code};

pub const SERVICE_NOT_SUPPORTED: u8 = 0x11;

pub const SUB_FUNCTION_NOT_SUPPORTED: u8 = 0x12;

pub const INCORRECT_MESSAGE_LENGTH_OR_INVALID_FORMAT: u8 = 0x13;
/// The request is to be sent again.
pub const BUSY_REPEAT_REQUEST: u8 = 0x21;

pub const CONDITIONS_NOT_CORRECT: u8 = 0x22;

pub const REQUEST_SEQUENCE_ERROR: u8 = 0x24;

pub const REQUEST_OUT_OF_RANGE: u8 = 0x31;

pub const SECURITY_ACCESS_DENIED: u8 = 0x33;

pub const INVALID_KEY: u8 = 0x35;

pub const UPLOAD_DOWNLOAD_NOT_ACCEPTED: u8 = 0x70;

pub const TRANSFER_DATA_SUSPENDED: u8 = 0x71;

pub const GENERAL_PROGRAMMING_FAILURE: u8 = 0x72;

pub const WRONG_BLOCK_SEQUENCE_COUNTER: u8 = 0x73;
/// The answer itself comes later.
pub const RESPONSE_PENDING: u8 = 0x78;

pub const SUB_FUNCTION_NOT_SUPPORTED_IN_ACTIVE_SESSION: u8 = 0x7e;

pub const SERVICE_NOT_SUPPORTED_IN_ACTIVE_SESSION: u8 = 0x7f;

/// The table of negative response codes.
macro_rules! by_code {
    ($nrc:expr; $listed:expr; $other:expr) => {
        match $nrc {
            SERVICE_NOT_SUPPORTED => $listed,
            SUB_FUNCTION_NOT_SUPPORTED => $listed,
            INCORRECT_MESSAGE_LENGTH_OR_INVALID_FORMAT => $listed,
            BUSY_REPEAT_REQUEST | CONDITIONS_NOT_CORRECT | REQUEST_SEQUENCE_ERROR => $listed,
            REQUEST_OUT_OF_RANGE | SECURITY_ACCESS_DENIED | INVALID_KEY => $listed,
            UPLOAD_DOWNLOAD_NOT_ACCEPTED | TRANSFER_DATA_SUSPENDED => $listed,
            GENERAL_PROGRAMMING_FAILURE | WRONG_BLOCK_SEQUENCE_COUNTER => $listed,
            RESPONSE_PENDING => $listed,
            SUB_FUNCTION_NOT_SUPPORTED_IN_ACTIVE_SESSION => $listed,
            SERVICE_NOT_SUPPORTED_IN_ACTIVE_SESSION => $listed,
            _ => $other,
        }
    };
}

/// Whether the table has this negative response code. Another is passed on as it is.
pub fn is_listed_code(nrc: u8) -> bool
    ensures { result ≡ is_code nrc }
{
    by_code!(nrc; true; false)
}
