//! Whether a message is the third leg of DCE style (MS-KILE, 3.4.5.1), as `confirm_third_leg` and `check_third_leg` say; the library for C is asked in
//! tests/frames.rows. The token is that of a client of MIT Kerberos 1.20.1 in DCE style. The messages are AP-REPs under its session key that a program made
//! which shares nothing with this library, and what is expected is the rule of MS-KILE, 3.4.5.1, or RFC 4120, 5.5.2, that they break.

use krb_accept::{
    Arrival, Context, PacCheck, ReplayCache, Settings, Terms, ThirdLegError, accept_token,
    check_third_leg, confirm_third_leg, keys_of_keytab,
};
use krb_der::IntegerAsn1;
use krb_files::keytab::KeytabView;
use std::alloc::Global;
use std::test::Fail;

/// The service's keytab.
const KEYTAB: &str =
    "05020000004e00020009504545522e544553540003653138000d7765622e706565722e7465737400000001000000\
    000100120020e59d7c0781c22ebc8da6c80dea8d1331a19e9b6cce6d452b617d627eeec27815";

/// The token of the client.
const TOKEN: &str =
    "6e8202b6308202b2a003020105a10302010ea20703050020000000a38201cc618201c8308201c4a003020105a10b\
    1b09504545522e54455354a21f301da003020103a11630141b036531381b0d7765622e706565722e74657374a382\
    018d30820189a003020112a103020101a282017b04820177429c07158482db1c4aae9668deb8c277cda7a1294a92\
    16a676c9d9de292647a713672ceb7d7d1e2f92f49e4b33a78d34404ebf2e751c24ba4f532157fdeec162979518e4\
    1aa06e3aa566a9bc4c04a5ae25821a82d21d93a02e2079d366ddbf56ed5aab61293d3c3fe559982ef9bc0d8d1066\
    03c911eedfa9045f4a5a519eb86323783a06c7b04bc6bda365948845e935673c626b678eeb019abd9673f4592fa8\
    feeee0a67194a36dbb0732fae82d09b9a769896cc9bc04a033fd246a43195203b6955d367fc5ab90c7bdbdd1c775\
    5323d58eeeafb84186ab54624d114e06290527726eca68bb63f2cf8f41ea16a937c5e72d2acc492812868c28f405\
    a2c8700aab59042195397f9e70d4bd8d5548d040e18ba6f7934424b4d4436d9a6592f6bb4d43fa8463dd39814f57\
    9dd800f690b635fac572a8c35bee3fd8ad618aa4b99f7426880ae7094b2fbd10b09d1e7e00ad4ac5f8c01ac4edca\
    5e98afc0068de79c6ab03dc4f96e490fa6f511f5615136d980dc3e673d9d3ba481cc3081c9a003020112a281c104\
    81be6470ba09e879076296875891f2b9cf2375aaaaa15b734ab3c260030504f0e3df67c3c7178b0e69c8f4d18053\
    d58637b77f72eec24639fb39d5166178cf2c399cc11fc88c3586c214fb5af7c653eb3d5368871855838f9a6b2b66\
    828f664195ab5d824180233a34d7cf02db88104e17c0fa2ab860313b9e9bbb9d69cf4b83105ce4add5f1b9ef9bf7\
    8c9ce4d4a414135429ca2303671910941bca121167e830c97629e5077ba709c81a60db0d7423f09d0837aef030f9\
    c24955d91138ce1c";

/// When it comes, in seconds since 1970.
const CLOCK: i64 = 1_795_763_303;

/// The service's own AP-REP.
const OWN_REPLY: &str =
    "6f5b3059a003020105a10302010fa24d304ba003020112a2440442951f5873067782c5718fab796f3b3f352fae77\
    76e3ef282f5c6ef987691f8770ce4969a5ce76fd4b667a38a0a8fdf7558478689449c276ef18eb219311ffe6e362\
    01";

/// The service's sequence number.
const NUMBER: &str = "1f2e3d4c";

/// A message, and what is said of it; nothing where it is taken.
struct Leg {
    name: &'static str,
    own_reply: &'static str,
    number: &'static str,
    message: &'static str,
    confirmed: Option<ThirdLegError>,
    checked: Option<ThirdLegError>,
}

const LEGS: [Leg; 19] = [
    Leg {
        name: "of another time",
        own_reply: OWN_REPLY,
        number: NUMBER,
        message: "6f5b3059a003020105a10302010fa24d304ba003020112a24404426526746b0c1886f64a1b8759bc343596\
            597ac5127f55f1c6ac360fa50f099275c0e250a81ddab9b9640ed6e711f83d95c14c7ce665ccc44037905f\
            d21df909a2e477",
        confirmed: None,
        checked: Some(ThirdLegError::Time),
    },
    Leg {
        name: "of the authenticator's time",
        own_reply: OWN_REPLY,
        number: NUMBER,
        message: "6f5b3059a003020105a10302010fa24d304ba003020112a2440442febfa11f4f7ef64ae637db0750f270f3\
            c724729b5f56058ce08f775782916b821d3c6ef26926a9b3384c3f1c9420c6b574003b7ecb44e5ea902c4a\
            b2114d7623e1f2",
        confirmed: None,
        checked: None,
    },
    Leg {
        name: "of another microsecond",
        own_reply: OWN_REPLY,
        number: NUMBER,
        message: "6f5b3059a003020105a10302010fa24d304ba003020112a244044213525e71c9e60c96ca4130087a3c84a5\
            1a2d22ee8ee84f1ec07f070a9a3983c5dad48512dece22c3404eb1336c70fe3f7a13148c11f1e547a4eed3\
            40e83946e9a545",
        confirmed: None,
        checked: Some(ThirdLegError::Time),
    },
    Leg {
        name: "with a kvno",
        own_reply: OWN_REPLY,
        number: NUMBER,
        message: "6f60305ea003020105a10302010fa2523050a003020112a103020101a24404420ef17ba0670c5278f01f3a\
            6e5fa0c8c9564ecee8750fe7961142da08f3c4d30b0d93ceedf22236597e3603070cf122a731b576c236a7\
            085f28909737363d3f6e4c5a",
        confirmed: None,
        checked: Some(ThirdLegError::Time),
    },
    Leg {
        name: "the service's own",
        own_reply: OWN_REPLY,
        number: NUMBER,
        message: OWN_REPLY,
        confirmed: Some(ThirdLegError::Reflected),
        checked: None,
    },
    Leg {
        name: "the service's own with a kvno",
        own_reply: OWN_REPLY,
        number: NUMBER,
        message: "6f60305ea003020105a10302010fa2523050a003020112a103020101a2440442951f5873067782c5718fab\
            796f3b3f352fae7776e3ef282f5c6ef987691f8770ce4969a5ce76fd4b667a38a0a8fdf7558478689449c2\
            76ef18eb219311ffe6e36201",
        confirmed: Some(ThirdLegError::Reflected),
        checked: None,
    },
    Leg {
        name: "the service's own, which is not given",
        own_reply: "",
        number: NUMBER,
        message: OWN_REPLY,
        confirmed: None,
        checked: None,
    },
    Leg {
        name: "the service's own cipher under another type",
        own_reply: OWN_REPLY,
        number: NUMBER,
        message: "6f5b3059a003020105a10302010fa24d304ba003020111a2440442951f5873067782c5718fab796f3b3f35\
            2fae7776e3ef282f5c6ef987691f8770ce4969a5ce76fd4b667a38a0a8fdf7558478689449c276ef18eb21\
            9311ffe6e36201",
        confirmed: Some(ThirdLegError::Reflected),
        checked: Some(ThirdLegError::Part),
    },
    Leg {
        name: "another number",
        own_reply: OWN_REPLY,
        number: NUMBER,
        message: "6f5b3059a003020105a10302010fa24d304ba003020112a2440442b33180564c8cfbcdfeeb5a73143a04af\
            57bb82baec4d6876569cd37cf794e33f795c58daf45db97152aee87f2068f3b2341a110cdca2fdde9b2cb0\
            dc32a4cea91dcf",
        confirmed: Some(ThirdLegError::SequenceNumber),
        checked: Some(ThirdLegError::Time),
    },
    Leg {
        name: "another number and the authenticator's time",
        own_reply: OWN_REPLY,
        number: NUMBER,
        message: "6f5b3059a003020105a10302010fa24d304ba003020112a24404424e8f9dec142b084aefdde49c45353956\
            b5a3d40612404011ecea7cb50e02b0ceae6d2bd95bb1fe242efb5cb9af8e97d5e494b0b53793c882dcd806\
            039261058fc27e",
        confirmed: Some(ThirdLegError::SequenceNumber),
        checked: Some(ThirdLegError::SequenceNumber),
    },
    Leg {
        name: "no number",
        own_reply: OWN_REPLY,
        number: NUMBER,
        message: "6f533051a003020105a10302010fa2453043a003020112a23c043a1624d2794b51aded76a52cc2264009e0\
            cf35f8ee6a70f1191e1172fe34780fa11df5a206f47f7785bef907b7bac2c36e00787f6a908b60c1d4ca",
        confirmed: Some(ThirdLegError::SequenceNumber),
        checked: Some(ThirdLegError::SequenceNumber),
    },
    Leg {
        name: "under the subkey",
        own_reply: OWN_REPLY,
        number: NUMBER,
        message: "6f5b3059a003020105a10302010fa24d304ba003020112a2440442ac46f7967f32b1d3fc1a8e351f5b858f\
            2cae199c69fc745d11e3eaa21cb50515de086b47bd40841d8b89846c54798f60d4eccca019676021da3f6e\
            1273efb830422a",
        confirmed: Some(ThirdLegError::Part),
        checked: Some(ThirdLegError::Part),
    },
    Leg {
        name: "for another usage",
        own_reply: OWN_REPLY,
        number: NUMBER,
        message: "6f5b3059a003020105a10302010fa24d304ba003020112a24404429edf9ba358028b648a981613b63cd064\
            c9005277149b0a8198ebd34c25911cf4a729d7deef79f938c5bd3985c420d87c906fa17f7f2c0281802f38\
            a4952ce362bc4e",
        confirmed: Some(ThirdLegError::Part),
        checked: Some(ThirdLegError::Part),
    },
    Leg {
        name: "with a changed octet",
        own_reply: OWN_REPLY,
        number: NUMBER,
        message: "6f5b3059a003020105a10302010fa24d304ba003020112a24404421e8b02ae67d8dd65735536b58671fdf2\
            f6706ab6dce98a55e75195f2bbda03aa0268c78aa017c0359da7751b2361848fdfda730d39c57e80d2cb93\
            9c190b0442af44",
        confirmed: Some(ThirdLegError::Part),
        checked: Some(ThirdLegError::Part),
    },
    Leg {
        name: "of another type",
        own_reply: OWN_REPLY,
        number: NUMBER,
        message: "6f5b3059a003020105a10302010ea24d304ba003020112a24404427608dd08e7b8600c413d63ad962c939a\
            b6eda1a1aec8a2db57ac5bb2bb75a6821334b91d98d5206c7790c3ddd5663f326b96844e938f915ac8380b\
            2fc8b6d803ed19",
        confirmed: Some(ThirdLegError::NotReply),
        checked: Some(ThirdLegError::NotReply),
    },
    Leg {
        name: "of another version",
        own_reply: OWN_REPLY,
        number: NUMBER,
        message: "6f5b3059a003020104a10302010fa24d304ba003020112a2440442951f5873067782c5718fab796f3b3f35\
            2fae7776e3ef282f5c6ef987691f8770ce4969a5ce76fd4b667a38a0a8fdf7558478689449c276ef18eb21\
            9311ffe6e36201",
        confirmed: Some(ThirdLegError::NotReply),
        checked: Some(ThirdLegError::NotReply),
    },
    Leg {
        name: "with an octet behind",
        own_reply: OWN_REPLY,
        number: NUMBER,
        message: "6f5b3059a003020105a10302010fa24d304ba003020112a244044263b4530f11fd3bd26bcef0f3f4738270\
            4e4c6719878c2af6546de8b962a604a86f862caaac451a5a71a5b4d0a3d8a48cd83cb9de3f6f82c222b483\
            2dca8c35ced36e00",
        confirmed: Some(ThirdLegError::NotReply),
        checked: Some(ThirdLegError::NotReply),
    },
    Leg {
        name: "the request",
        own_reply: OWN_REPLY,
        number: NUMBER,
        message: TOKEN,
        confirmed: Some(ThirdLegError::NotReply),
        checked: Some(ThirdLegError::NotReply),
    },
    Leg {
        name: "nothing",
        own_reply: OWN_REPLY,
        number: NUMBER,
        message: "",
        confirmed: Some(ThirdLegError::NotReply),
        checked: Some(ThirdLegError::NotReply),
    },
];

/// The context of the client, if the service lets it in.
fn let_in(alloc: Global) -> Result<Option<Context>, Fail> {
    let keytab = hex::decode(alloc, KEYTAB)?;
    let keys = keys_of_keytab(alloc, &KeytabView::new(&keytab)?)?;
    let token = hex::decode(alloc, TOKEN)?;
    let settings = Settings {
        bindings: None,
        bare_request: true,
        other_checksum: true,
        pac: PacCheck::Checked,
    };
    let terms = Terms::new(alloc, 300, None)?;
    let arrival = Arrival {
        clock: CLOCK,
        address: None,
    };
    let mut cache = ReplayCache::new(alloc);
    let answer = accept_token(
        alloc,
        &keys,
        &[],
        &terms,
        &arrival,
        &settings,
        &token,
        &mut cache,
    );
    drop(cache);
    drop(terms);
    match answer {
        Ok(context) => Ok(Some(context)),
        Err(refusal) => {
            drop(refusal);
            Ok(None)
        }
    }
}

/// Whether both calls say of a message what is expected.
fn is_as_expected(alloc: Global, context: &Context, leg: &Leg) -> Result<bool, Fail> {
    let own_reply = hex::decode(alloc, leg.own_reply)?;
    let number = IntegerAsn1::from_bytes_be_unsigned(alloc, hex::decode(alloc, leg.number)?)?;
    let message = hex::decode(alloc, leg.message)?;
    let confirmed = confirm_third_leg(alloc, &context.accepted, &own_reply, &number, &message);
    let checked = check_third_leg(alloc, &context.accepted, &number, &message);
    Ok(confirmed.err() == leg.confirmed && checked.err() == leg.checked)
}

#[test]
fn third_legs(rt: HostRuntime) -> Result<(), Fail> {
    let context = let_in(rt.alloc())?;
    assert!(rt; context.is_some());
    if let Some(context) = &context {
        for leg in &LEGS {
            assert!(rt; is_as_expected(rt.alloc(), context, leg)?, "{}", leg.name);
        }
    }
    drop(context);
    Ok(())
}
