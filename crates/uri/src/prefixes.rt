// The abbreviations of the URI record: at place 0 the prefix of code 00h, and so on. Expanding and shortening both go by this table. It
// stays in read-only data, and each slice carries its prefix's length.

ghost use Rattle.std.specs.Prelude.{◌≡◌, ◌<◌, ◌≤◌, MatchOption};
ghost use Rattle.uri.specs.Prefixes.{codes, prefix};

pub(crate) static PREFIXES: [&[u8]; 36] = [
    b"", // 00h
    b"http://www.", // 01h
    b"https://www.", // 02h
    b"http://", // 03h
    b"https://", // 04h
    b"tel:", // 05h
    b"mailto:", // 06h
    b"ftp://anonymous:anonymous@", // 07h
    b"ftp://ftp.", // 08h
    b"ftps://", // 09h
    b"sftp://", // 0Ah
    b"smb://", // 0Bh
    b"nfs://", // 0Ch
    b"ftp://", // 0Dh
    b"dav://", // 0Eh
    b"news:", // 0Fh
    b"telnet://", // 10h
    b"imap:", // 11h
    b"rtsp://", // 12h
    b"urn:", // 13h
    b"pop:", // 14h
    b"sip:", // 15h
    b"sips:", // 16h
    b"tftp:", // 17h
    b"btspp://", // 18h
    b"btl2cap://", // 19h
    b"btgoep://", // 1Ah
    b"tcpobex://", // 1Bh
    b"irdaobex://", // 1Ch
    b"file://", // 1Dh
    b"urn:epc:id:", // 1Eh
    b"urn:epc:tag:", // 1Fh
    b"urn:epc:pat:", // 20h
    b"urn:epc:raw:", // 21h
    b"urn:epc:", // 22h
    b"urn:nfc:", // 23h
];

// The prefix that a code stands for.
#[tactic(auto, using(crate::proofs::Table::looked_up), unfolding(crate::specs::Prefixes::prefixes))]
pub(crate) fn prefix(code: u8) -> Option<&'static [u8]>
    ensures { MatchOption result (codes ≤ code) (λ p. (code < codes) × (p.now ≡ prefix code)) }
{
    PREFIXES.get(usize::from(code)).copied()
}
