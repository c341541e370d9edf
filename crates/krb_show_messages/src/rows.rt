//! The rows of messages that tokens, frames and caches hold as values.

ghost use Rattle.std.specs.Prelude.{◌≡◌, ℕ, List, codes};

use krb_messages::messages::{
    ApRep, ApReq, AsRep, AsReq, KrbError, KrbPriv, TgsRep, TgsReq, TgtRep, TgtReq,
};
use krb_types::data_types::Ticket;

/// A type of DER whose values are shown by its row in the table of `krb_schema`.
pub trait HasRow {
    /// The name of the row.
    ghost row_name: { List ℕ };

    /// The name of the row: the type as its standard spells it.
    fn row() -> &'static str
        ensures { result.now ≡ row_name };
}

impl HasRow for Ticket {
    ghost row_name = { codes "Ticket" };

    fn row() -> &'static str {
        "Ticket"
    }
}

impl HasRow for AsReq {
    ghost row_name = { codes "AS-REQ" };

    fn row() -> &'static str {
        "AS-REQ"
    }
}

impl HasRow for AsRep {
    ghost row_name = { codes "AS-REP" };

    fn row() -> &'static str {
        "AS-REP"
    }
}

impl HasRow for TgsReq {
    ghost row_name = { codes "TGS-REQ" };

    fn row() -> &'static str {
        "TGS-REQ"
    }
}

impl HasRow for TgsRep {
    ghost row_name = { codes "TGS-REP" };

    fn row() -> &'static str {
        "TGS-REP"
    }
}

impl HasRow for ApReq {
    ghost row_name = { codes "AP-REQ" };

    fn row() -> &'static str {
        "AP-REQ"
    }
}

impl HasRow for ApRep {
    ghost row_name = { codes "AP-REP" };

    fn row() -> &'static str {
        "AP-REP"
    }
}

impl HasRow for KrbPriv {
    ghost row_name = { codes "KRB-PRIV" };

    fn row() -> &'static str {
        "KRB-PRIV"
    }
}

impl HasRow for KrbError {
    ghost row_name = { codes "KRB-ERROR" };

    fn row() -> &'static str {
        "KRB-ERROR"
    }
}

impl HasRow for TgtReq {
    ghost row_name = { codes "TGT-REQ" };

    fn row() -> &'static str {
        "TGT-REQ"
    }
}

impl HasRow for TgtRep {
    ghost row_name = { codes "TGT-REP" };

    fn row() -> &'static str {
        "TGT-REP"
    }
}
