//! Laws of writing and reading records. These functions compute nothing: their clauses are the laws.
ghost use Rattle.std.specs.Prelude.{◌≡◌, ◌<◌, ◌≤◌, ◌+◌, ◌^◌, ◌∷◌, ◌++◌, [], ℕ, List, length, Some, codes};
ghost use Rattle.std.specs.List.{All};
ghost use Rattle.pcap_file.specs.Blocks.{gains_interface_block, interface_block, interface_text};
ghost use Rattle.pcap_file.specs.Capture.{packets_of};
ghost use Rattle.pcap_file.specs.InterfaceTexts.{texts_in};
ghost use Rattle.pcap_file.specs.declared.decode.endian.Endian.TheVariants.{Little};
ghost use Rattle.pcap_file.specs.Entries.{Mark, entries_of};
ghost use Rattle.pcap_file.specs.declared.decode.record_mark.RecordMark.TheVariants.{Closed, Opened};
ghost use Rattle.pcap_file.specs.RecordedDatagram.{ArrivalView};
ghost use Rattle.pcap_file.specs.RecordedChange.{ChangeView, IsChange, change_octets, change_of};
ghost use Rattle.pcap_file.specs.IpHeader.{HasAddresses, carried, header_octets, words_sum};
ghost use Rattle.pcap_file.specs.WrittenRecord.{
  IsArrival,
  IsPath,
  PathView,
  closed_gains_record,
  closed_record,
  items_of,
  open_gains_record,
  open_record,
  packet_entries,
};
ghost use Rattle.pcap_file.specs.Times.{instants_in, nanoseconds_of};

/// States that sampling instants that are written as nanoseconds are read back unchanged.
pub fn instants_come_back()
    ensures { (instants : ℕ) → instants_in (nanoseconds_of instants) ≡ instants }
{}

/// States that the one's complement sum of an IPv4 header's words is all ones, with the checksum among them (RFC 1071).
pub fn checksums_are_right()
    ensures { (a : ArrivalView) → HasAddresses a → length a.octets ≤ 32784
        → carried (carried (words_sum (header_octets a))) ≡ 65535 }
{}

/// States that the name of a path and the description of its stream's configuration are read back as they were written,
/// and those of the interface of changes of gains.
pub fn paths_are_read_back()
    ensures path { (path : PathView) → IsPath path
        → texts_in Little (interface_block path.stream path.letter path.description)
        ≡ Some (record { name = interface_text path.stream path.letter; description = path.description }) }
    ensures gains { texts_in Little gains_interface_block
        ≡ Some (record { name = codes "gains"; description = codes "gains" }) }
{}

/// States that a change of gains is read back from its payload as it was taken.
pub fn changes_are_read_back()
    ensures { (change : ChangeView) → IsChange change → change_of (change_octets change) ≡ Some change }
{}

/// States that a record is read back as it was written: its opening, its datagrams, and its close if there is one. Its
/// blocks, in this order, are the section header, up to 64 interfaces, the datagrams on these, and the statistics. If
/// the gains of its run can change, one more interface is behind those of the paths, and the changes are datagrams on
/// it.
pub fn records_are_read_back()
    ensures open_packets { (open_at : ℕ) (paths : List PathView) (arrivals : List ArrivalView)
        → open_at < 2 ^ 63 → All IsPath paths → length paths ≤ 64
        → All (IsArrival (length paths)) arrivals
        → packets_of (open_record open_at paths arrivals) ≡ items_of arrivals }
    ensures open_entries { (open_at : ℕ) (paths : List PathView) (arrivals : List ArrivalView)
        → open_at < 2 ^ 63 → All IsPath paths → length paths ≤ 64
        → All (IsArrival (length paths)) arrivals
        → entries_of (open_record open_at paths arrivals) ≡ Mark (Opened open_at) ∷ packet_entries arrivals }
    ensures closed_packets { (open_at : ℕ) (paths : List PathView) (arrivals : List ArrivalView) (closed : ℕ)
        → open_at < 2 ^ 63 → All IsPath paths → 1 ≤ length paths → length paths ≤ 64
        → All (IsArrival (length paths)) arrivals → closed < 2 ^ 64
        → packets_of (closed_record open_at paths arrivals closed) ≡ items_of arrivals }
    ensures closed_entries { (open_at : ℕ) (paths : List PathView) (arrivals : List ArrivalView) (closed : ℕ)
        → open_at < 2 ^ 63 → All IsPath paths → 1 ≤ length paths → length paths ≤ 64
        → All (IsArrival (length paths)) arrivals → closed < 2 ^ 64
        → entries_of (closed_record open_at paths arrivals closed)
        ≡ Mark (Opened open_at) ∷ (packet_entries arrivals ++ Mark (Closed closed) ∷ []) }
    ensures open_gains_packets { (open_at : ℕ) (paths : List PathView) (arrivals : List ArrivalView)
        → open_at < 2 ^ 63 → All IsPath paths → length paths ≤ 64
        → All (IsArrival (length paths + 1)) arrivals
        → packets_of (open_gains_record open_at paths arrivals) ≡ items_of arrivals }
    ensures open_gains_entries { (open_at : ℕ) (paths : List PathView) (arrivals : List ArrivalView)
        → open_at < 2 ^ 63 → All IsPath paths → length paths ≤ 64
        → All (IsArrival (length paths + 1)) arrivals
        → entries_of (open_gains_record open_at paths arrivals) ≡ Mark (Opened open_at) ∷ packet_entries arrivals }
    ensures closed_gains_packets { (open_at : ℕ) (paths : List PathView) (arrivals : List ArrivalView) (closed : ℕ)
        → open_at < 2 ^ 63 → All IsPath paths → length paths ≤ 64
        → All (IsArrival (length paths + 1)) arrivals → closed < 2 ^ 64
        → packets_of (closed_gains_record open_at paths arrivals closed) ≡ items_of arrivals }
    ensures closed_gains_entries { (open_at : ℕ) (paths : List PathView) (arrivals : List ArrivalView) (closed : ℕ)
        → open_at < 2 ^ 63 → All IsPath paths → length paths ≤ 64
        → All (IsArrival (length paths + 1)) arrivals → closed < 2 ^ 64
        → entries_of (closed_gains_record open_at paths arrivals closed)
        ≡ Mark (Opened open_at) ∷ (packet_entries arrivals ++ Mark (Closed closed) ∷ []) }
{}
