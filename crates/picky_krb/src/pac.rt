//! The PAC, or privilege attribute certificate (MS-PAC).

pub use krb_pac::{
    NumberedBufferView, NumberedBuffers, NumberedInfoBuffer, NumberedPacView, Pac, PacBuffer,
    PacBufferType, PacBufferView, PacBuffers, PacError, PacInfoBuffer, PacView,
};
