// URI records and Smart Poster records, known by TNF and type.

ghost use Rattle.std.specs.Prelude.{◌≡◌};
ghost use Rattle.smart_poster.specs.Records.{kind_of};
ghost use Rattle.smart_poster.specs.Views.Findings.{kind_as};

// TNF 1: the type is one of the NFC Forum's own. It stays a number, as kind_of of specs/Records.antt has it.
const WELL_KNOWN: usize = 1;

const URI: &[u8] = b"U";

const POSTER: &[u8] = b"Sp";

#[derive(Clone, Copy, Debug, PartialEq, Eq)]
pub(crate) enum RecordKind {
    Uri,
    Poster,
    Other,
}

impl RecordKind {
    // What kind of record has this TNF and this type.
    #[tactic(auto, unfolding(crate::specs::Records::kind_of))]
    pub(crate) fn of(tnf: usize, rtype: &[u8]) -> RecordKind
        ensures { kind_as result ≡ kind_of tnf rtype.now }
    {
        match tnf {
            WELL_KNOWN if rtype == URI => RecordKind::Uri,
            WELL_KNOWN if rtype == POSTER => RecordKind::Poster,
            _ => RecordKind::Other,
        }
    }
}
