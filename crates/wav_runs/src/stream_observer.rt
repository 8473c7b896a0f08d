//! An observer that writes one stream of a replay to a WAV file.
ghost use Rattle.wav_runs.specs.StreamEvents.{HasFollowed};

use crate::stream_events::StreamWav;
use pcap_replay::ReplayObserver;
use rtp_stream::Path;
use wav_file::Overwrite;

/// The WAV file of a stream takes each event of a replay, and none of the datagrams.
impl<F: Overwrite + Drop> ReplayObserver for StreamWav<F> {
    ghost heard = { λ begun now events _. HasFollowed begun now events };

    fn arrived(&mut self, stream: usize, path: Path, octets: &[u8]) {
        self.push_datagram(stream, path, octets)
    }

    fn read(&mut self, time: i64) {
        self.push_tick(time)
    }

    fn closed(&mut self) {
        self.push_close()
    }

    fn output(&mut self, _datagram: &[u8]) {}
}
