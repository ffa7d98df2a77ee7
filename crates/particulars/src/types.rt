// The types of TS-1022 section 10 as data: for each a constant table of its members, in the order in which they stand there. specs/Types.antt has the same
// tables, to be laid beside that section.
ghost use Rattle.std.specs.Prelude.{◌≡◌, ◌≤◌, length, map};
ghost use Rattle.particulars.specs.Types.{row_of, rows_of};

// A type.
#[derive(Clone, Copy)]
pub enum Kind {
    CallerLocation,
    CallerInformation,
    PersonalInformation,
    HomeLocation,
    EmergencyContact,
    RegionInformation,
    LiveLocation,
}

// What the call says: whether it is training (15), and whether emergency contacts may be there (15, 18, 19).
#[derive(Clone, Copy)]
pub struct Call {
    pub training: bool,
    pub contacts: bool,
}

// What a value has to be that is no object and no array.
#[derive(Clone, Copy)]
pub enum Leaf {
    // `gps`, `network`, `preset` or `map`
    Provider,
    // `gps` or `network`
    LiveProvider,
    // `male` or `female`
    Sex,
    // text of so many to so many characters
    Text(usize, usize),
    // text of at most so many, not empty where the provider is `preset`
    Name(usize),
    // text that is not empty
    Filled,
    // so many to 15 digits
    Telephone(usize),
    // a coordinate within so many degrees
    Coordinate(u32),
    // whole metres
    Metres,
    // whole metres, `0` where the provider is `preset` or `map`
    Accuracy,
    Date,
    Day,
    FireId,
    UserId,
}

// What stands under a name: such a value, an object of a type, or an array of at most so many objects of a type, and of none in a call that may have none.
#[derive(Clone, Copy)]
pub enum Rule {
    Value(Leaf),
    Object(Kind),
    Objects(usize, Kind),
}

// Whether a member must be there: it must, it need not, it must where the provider is `preset`; or one at least must be set of all that are marked so.
#[derive(Clone, Copy)]
pub enum Need {
    Required,
    Optional,
    OfPreset,
    OneSet,
}

// A member of a type. In training an eased one may be the empty string.
#[derive(Clone, Copy)]
pub struct Entry {
    pub name: &'static [u8],
    pub need: Need,
    pub eased: bool,
    pub rule: Rule,
}

// What a row has that says nothing else; each gives its own name and rule.
const REQUIRED: Entry = Entry {
    name: b"",
    need: Need::Required,
    eased: false,
    rule: Rule::Value(Leaf::Filled),
};

const OPTIONAL: Entry = Entry {
    need: Need::Optional,
    ..REQUIRED
};

// 10.1 Caller-Location.
const CALLER_LOCATION: [Entry; 6] = [
    Entry {
        name: b"name",
        rule: Rule::Value(Leaf::Name(15)),
        need: Need::OfPreset,
        ..REQUIRED
    },
    Entry {
        name: b"provider",
        rule: Rule::Value(Leaf::Provider),
        ..REQUIRED
    },
    Entry {
        name: b"latitude",
        rule: Rule::Value(Leaf::Coordinate(90)),
        ..REQUIRED
    },
    Entry {
        name: b"longitude",
        rule: Rule::Value(Leaf::Coordinate(180)),
        ..REQUIRED
    },
    Entry {
        name: b"accuracy",
        rule: Rule::Value(Leaf::Accuracy),
        ..OPTIONAL
    },
    Entry {
        name: b"memo",
        rule: Rule::Value(Leaf::Text(0, 64)),
        ..OPTIONAL
    },
];

// 10.2 Caller-Information.
const CALLER_INFORMATION: [Entry; 7] = [
    Entry {
        name: b"region",
        rule: Rule::Value(Leaf::FireId),
        ..REQUIRED
    },
    Entry {
        name: b"uid",
        rule: Rule::Value(Leaf::UserId),
        ..REQUIRED
    },
    Entry {
        name: b"email",
        rule: Rule::Value(Leaf::Text(1, 254)),
        ..REQUIRED
    },
    Entry {
        name: b"last-modified",
        rule: Rule::Value(Leaf::Date),
        ..REQUIRED
    },
    Entry {
        name: b"personal-information",
        rule: Rule::Object(Kind::PersonalInformation),
        ..REQUIRED
    },
    Entry {
        name: b"emergency-contacts",
        rule: Rule::Objects(3, Kind::EmergencyContact),
        ..OPTIONAL
    },
    Entry {
        name: b"region-information",
        rule: Rule::Object(Kind::RegionInformation),
        ..REQUIRED
    },
];

// 10.3 Personal-Information.
const PERSONAL_INFORMATION: [Entry; 8] = [
    Entry {
        name: b"name",
        eased: true,
        rule: Rule::Value(Leaf::Text(1, 30)),
        ..REQUIRED
    },
    Entry {
        name: b"kana",
        eased: true,
        rule: Rule::Value(Leaf::Text(0, 30)),
        ..OPTIONAL
    },
    Entry {
        name: b"address",
        eased: true,
        rule: Rule::Value(Leaf::Text(1, 64)),
        ..REQUIRED
    },
    Entry {
        name: b"tel",
        eased: true,
        rule: Rule::Value(Leaf::Telephone(0)),
        ..OPTIONAL
    },
    Entry {
        name: b"fax",
        eased: true,
        rule: Rule::Value(Leaf::Telephone(0)),
        ..OPTIONAL
    },
    Entry {
        name: b"sex",
        rule: Rule::Value(Leaf::Sex),
        ..REQUIRED
    },
    Entry {
        name: b"birthday",
        eased: true,
        rule: Rule::Value(Leaf::Day),
        ..REQUIRED
    },
    Entry {
        name: b"location",
        eased: true,
        rule: Rule::Object(Kind::HomeLocation),
        ..REQUIRED
    },
];

// 10.4 Home-Location.
const HOME_LOCATION: [Entry; 2] = [
    Entry {
        name: b"latitude",
        rule: Rule::Value(Leaf::Coordinate(90)),
        ..REQUIRED
    },
    Entry {
        name: b"longitude",
        rule: Rule::Value(Leaf::Coordinate(180)),
        ..REQUIRED
    },
];

// 10.5 Emergency-Contact.
const EMERGENCY_CONTACT: [Entry; 6] = [
    Entry {
        name: b"name",
        rule: Rule::Value(Leaf::Text(1, 30)),
        ..REQUIRED
    },
    Entry {
        name: b"kana",
        rule: Rule::Value(Leaf::Text(0, 30)),
        ..OPTIONAL
    },
    Entry {
        name: b"relation",
        rule: Rule::Value(Leaf::Text(1, 15)),
        ..REQUIRED
    },
    Entry {
        name: b"tel",
        rule: Rule::Value(Leaf::Telephone(0)),
        need: Need::OneSet,
        ..REQUIRED
    },
    Entry {
        name: b"fax",
        rule: Rule::Value(Leaf::Telephone(0)),
        need: Need::OneSet,
        ..REQUIRED
    },
    Entry {
        name: b"email",
        rule: Rule::Value(Leaf::Text(0, 254)),
        need: Need::OneSet,
        ..REQUIRED
    },
];

// 10.6 Region-Information.
const REGION_INFORMATION: [Entry; 2] = [
    Entry {
        name: b"name",
        rule: Rule::Value(Leaf::Filled),
        ..REQUIRED
    },
    Entry {
        name: b"tel",
        rule: Rule::Value(Leaf::Telephone(1)),
        ..REQUIRED
    },
];

// 10.7 Live-Location.
const LIVE_LOCATION: [Entry; 5] = [
    Entry {
        name: b"provider",
        rule: Rule::Value(Leaf::LiveProvider),
        ..REQUIRED
    },
    Entry {
        name: b"latitude",
        rule: Rule::Value(Leaf::Coordinate(90)),
        ..REQUIRED
    },
    Entry {
        name: b"longitude",
        rule: Rule::Value(Leaf::Coordinate(180)),
        ..REQUIRED
    },
    Entry {
        name: b"accuracy",
        rule: Rule::Value(Leaf::Metres),
        ..REQUIRED
    },
    Entry {
        name: b"date",
        rule: Rule::Value(Leaf::Date),
        ..REQUIRED
    },
];

// The members of a type.
#[tactic(auto, unfolding(crate::specs::Types::rows_of))]
pub fn entries(t: Kind) -> &'static [Entry]
    ensures { (map row_of result.now ≡ rows_of t) × (length result.now ≤ 8) }
{
    match t {
        Kind::CallerLocation => &CALLER_LOCATION,
        Kind::CallerInformation => &CALLER_INFORMATION,
        Kind::PersonalInformation => &PERSONAL_INFORMATION,
        Kind::HomeLocation => &HOME_LOCATION,
        Kind::EmergencyContact => &EMERGENCY_CONTACT,
        Kind::RegionInformation => &REGION_INFORMATION,
        Kind::LiveLocation => &LIVE_LOCATION,
    }
}
