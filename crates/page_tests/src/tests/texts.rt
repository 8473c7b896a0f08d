//! The two texts of a snapshot, written out by hand.
use super::sample::snapshot;
use status_page::{Snapshot, metrics_text, state_json};
use std::alloc::Global;
use std::process::Abort;

/// The JSON of the snapshot.
pub(super) const STATE: &str =
    "{\"streams\":[{\"name\":\"L\\\"\\\\\\n<b>\",\"state\":\"running\",\"got\":0,\"lost\":1,\
    \"arrived\":0,\"taken\":0,\"double\":0,\"unlike\":0,\"off_grid\":0,\"late\":0,\"ahead\":0,\"wrong_source\":0,\
    \"restarts\":0,\"latency\":240,\"seconds_left\":19,\"redundancy\":1,\"paths\":[{\"state\":\"losing\",\"datagrams\":2,\"first\":3,\"packets\":0,\"lost\":4,\
    \"double\":5,\"unlike\":6,\"late\":7,\"ahead\":15,\"repeated\":16,\"bad\":0,\"wrong_type\":0,\"wrong_length\":0,\"full\":2,\"spare_least\":12,\
    \"spare_median\":30,\"spare_greatest\":36,\"drift_ppm\":-18,\"astray\":1,\"repeating\":0,\"unexpected\":null,\"socket_faults\":8,\"socket_ended\":1,\"socket_dropped\":9,\"too_long\":26,\"held_up\":27},{\"state\":null,\"datagrams\":0,\"first\":0,\"packets\":null,\"lost\":null,\"double\":null,\"unlike\":null,\
    \"late\":null,\"ahead\":null,\"repeated\":null,\"bad\":null,\"wrong_type\":null,\"wrong_length\":null,\"full\":null,\"spare_least\":null,\
    \"spare_median\":null,\"spare_greatest\":null,\"drift_ppm\":null,\"astray\":null,\"repeating\":null,\"unexpected\":null,\"socket_faults\":null,\"socket_ended\":null,\"socket_dropped\":null,\"too_long\":null,\"held_up\":null}]}],\
    \"outputs\":[{\"peak\":8388608,\"saturated\":2},{\"peak\":0,\"saturated\":2}],\
    \"failed_sends\":[11,13],\"stale\":10,\"incomplete\":31,\"sent_late\":32,\"left_out\":33,\
    \"record\":{\"state\":\"ended\",\"datagrams\":14},\
    \"wav\":{\"state\":\"writing\",\"blocks\":20},\"pcm\":{\"state\":\"waiting\",\"blocks\":21,\"left_out\":22}}";

/// The JSON of a snapshot without streams, outputs, failed, stale, incomplete or late sends, a record, a WAV file and
/// raw PCM.
const EMPTY: &str = "{\"streams\":[],\"outputs\":[],\"failed_sends\":[0,0],\"stale\":0,\
    \"incomplete\":0,\"sent_late\":0,\"left_out\":0,\
    \"record\":{\"state\":\"none\",\"datagrams\":null},\"wav\":{\"state\":\"none\",\"blocks\":null},\
    \"pcm\":{\"state\":\"none\",\"blocks\":null,\"left_out\":null}}";

/// Parts of its metrics.
const METRICS: [&str; 20] = [
    "# HELP darbexum_stream_state Where the stream stands: 1 for the state that it is in, and 0 for the others.\n\
    # TYPE darbexum_stream_state gauge\n\
    darbexum_stream_state{stream=\"0\",name=\"L\\\"\\\\\\n<b>\",state=\"no_packet\"} 0\n\
    darbexum_stream_state{stream=\"0\",name=\"L\\\"\\\\\\n<b>\",state=\"running\"} 1\n",
    "# TYPE darbexum_path_state gauge\n\
    darbexum_path_state{stream=\"0\",name=\"L\\\"\\\\\\n<b>\",path=\"a\",state=\"given_up\"} 0\n\
    darbexum_path_state{stream=\"0\",name=\"L\\\"\\\\\\n<b>\",path=\"a\",state=\"not_joined\"} 0\n\
    darbexum_path_state{stream=\"0\",name=\"L\\\"\\\\\\n<b>\",path=\"a\",state=\"no_datagrams\"} 0\n\
    darbexum_path_state{stream=\"0\",name=\"L\\\"\\\\\\n<b>\",path=\"a\",state=\"refused\"} 0\n\
    darbexum_path_state{stream=\"0\",name=\"L\\\"\\\\\\n<b>\",path=\"a\",state=\"late\"} 0\n\
    darbexum_path_state{stream=\"0\",name=\"L\\\"\\\\\\n<b>\",path=\"a\",state=\"too_early\"} 0\n\
    darbexum_path_state{stream=\"0\",name=\"L\\\"\\\\\\n<b>\",path=\"a\",state=\"losing\"} 1\n\
    darbexum_path_state{stream=\"0\",name=\"L\\\"\\\\\\n<b>\",path=\"a\",state=\"in_time\"} 0\n# HELP ",
    "# TYPE darbexum_stream_redundancy gauge\ndarbexum_stream_redundancy{stream=\"0\",name=\"L\\\"\\\\\\n<b>\"} 1\n",
    "\n# TYPE darbexum_stream_lost_total counter\n\
    darbexum_stream_lost_total{stream=\"0\",name=\"L\\\"\\\\\\n<b>\"} 1\n",
    "\n# TYPE darbexum_stream_latency gauge\ndarbexum_stream_latency{stream=\"0\",name=\"L\\\"\\\\\\n<b>\"} 240\n",
    "darbexum_path_first_total{stream=\"0\",name=\"L\\\"\\\\\\n<b>\",path=\"a\"} 3\n\
    darbexum_path_first_total{stream=\"0\",name=\"L\\\"\\\\\\n<b>\",path=\"b\"} 0\n",
    "darbexum_path_full_total{stream=\"0\",name=\"L\\\"\\\\\\n<b>\",path=\"a\"} 2\n# HELP ",
    "darbexum_path_spare_least{stream=\"0\",name=\"L\\\"\\\\\\n<b>\",path=\"a\"} 12\n# HELP ",
    "# TYPE darbexum_path_drift_ppm gauge\n\
    darbexum_path_drift_ppm{stream=\"0\",name=\"L\\\"\\\\\\n<b>\",path=\"a\"} -18\n# HELP ",
    "darbexum_path_astray{stream=\"0\",name=\"L\\\"\\\\\\n<b>\",path=\"a\"} 1\n# HELP ",
    "# TYPE darbexum_stream_seconds_left gauge\ndarbexum_stream_seconds_left{stream=\"0\",name=\"L\\\"\\\\\\n<b>\"} 19\n",
    "# TYPE darbexum_output_peak gauge\ndarbexum_output_peak{output=\"0\"} 8388608\ndarbexum_output_peak{output=\"1\"} 0\n",
    "# TYPE darbexum_output_saturated_total counter\ndarbexum_output_saturated_total{output=\"0\"} 2\n",
    "# TYPE darbexum_path_unexpected_total counter\n# HELP darbexum_path_socket_faults_total ",
    "# TYPE darbexum_path_socket_ended gauge\n\
    darbexum_path_socket_ended{stream=\"0\",name=\"L\\\"\\\\\\n<b>\",path=\"a\"} 1\n# HELP ",
    "# TYPE darbexum_path_socket_dropped_total counter\n\
    darbexum_path_socket_dropped_total{stream=\"0\",name=\"L\\\"\\\\\\n<b>\",path=\"a\"} 9\n# HELP ",
    "# TYPE darbexum_path_too_long_total counter\n\
    darbexum_path_too_long_total{stream=\"0\",name=\"L\\\"\\\\\\n<b>\",path=\"a\"} 26\n# HELP ",
    "# TYPE darbexum_path_held_up_total counter\n\
    darbexum_path_held_up_total{stream=\"0\",name=\"L\\\"\\\\\\n<b>\",path=\"a\"} 27\n# HELP ",
    "# TYPE darbexum_sends_failed_total counter\n\
    darbexum_sends_failed_total{copy=\"a\"} 11\ndarbexum_sends_failed_total{copy=\"b\"} 13\n\
    # HELP darbexum_sends_stale_total Datagrams of the mix that were sent to neither address, \
    because they were useless to every receiver.\n\
    # TYPE darbexum_sends_stale_total counter\ndarbexum_sends_stale_total 10\n\
    # HELP darbexum_incomplete_datagrams_total Datagrams of the mix in whose block a stream was missing, sent or not.\n\
    # TYPE darbexum_incomplete_datagrams_total counter\ndarbexum_incomplete_datagrams_total 31\n\
    # HELP darbexum_late_datagrams_total Datagrams of the mix that were sent later than a whole one, \
    because a stream was missing.\n\
    # TYPE darbexum_late_datagrams_total counter\ndarbexum_late_datagrams_total 32\n\
    # HELP darbexum_left_out_datagrams_total Datagrams of the mix that were left out \
    because whole copies come from elsewhere: no stream was there, or the run had ended.\n\
    # TYPE darbexum_left_out_datagrams_total counter\ndarbexum_left_out_datagrams_total 33\n\
    # HELP darbexum_record_state The state of the record: 1 for the state that it is in, and 0 for the others.\n\
    # TYPE darbexum_record_state gauge\n\
    darbexum_record_state{state=\"none\"} 0\ndarbexum_record_state{state=\"writing\"} 0\n\
    darbexum_record_state{state=\"ended\"} 1\n\
    # HELP darbexum_record_datagrams_total Datagrams that the record holds.\n\
    # TYPE darbexum_record_datagrams_total counter\ndarbexum_record_datagrams_total 14\n\
    # HELP darbexum_wav_state ",
    "# HELP darbexum_wav_state The state of the WAV file: 1 for the state that it is in, and 0 for the others.\n\
    # TYPE darbexum_wav_state gauge\n\
    darbexum_wav_state{state=\"none\"} 0\ndarbexum_wav_state{state=\"writing\"} 1\ndarbexum_wav_state{state=\"ended\"} 0\n\
    # HELP darbexum_wav_blocks_total Blocks of the mix that the WAV file holds.\n\
    # TYPE darbexum_wav_blocks_total counter\ndarbexum_wav_blocks_total 20\n\
    # HELP darbexum_pcm_state The state of the raw PCM: 1 for the state that it is in, and 0 for the others.\n\
    # TYPE darbexum_pcm_state gauge\n\
    darbexum_pcm_state{state=\"none\"} 0\ndarbexum_pcm_state{state=\"waiting\"} 1\n\
    darbexum_pcm_state{state=\"writing\"} 0\ndarbexum_pcm_state{state=\"ended\"} 0\n\
    # HELP darbexum_pcm_blocks_total Blocks of the mix that were written as raw PCM.\n\
    # TYPE darbexum_pcm_blocks_total counter\ndarbexum_pcm_blocks_total 21\n\
    # HELP darbexum_pcm_left_out_total Blocks of the mix that were left out of the raw PCM, \
    because its reader was slow or there was none.\n\
    # TYPE darbexum_pcm_left_out_total counter\ndarbexum_pcm_left_out_total 22\n",
];

/// Returns true if the state was written; else an allocation was refused.
fn is_state(rt: &impl Abort, alloc: Global, snapshot: &Snapshot, want: &str) -> bool {
    match state_json(alloc, snapshot) {
        Ok(text) => {
            assert!(rt; text.as_slice() == want.as_bytes());
            true
        }
        Err(_) => false,
    }
}

/// A name is escaped as JSON requires, and what isn't known is null.
#[test]
fn the_state_is_json(rt: HostRuntime) {
    let is_written = is_state(&rt, rt.alloc(), &snapshot(), STATE);
    let empty_is_written = is_state(&rt, rt.alloc(), &Snapshot::new(), EMPTY);
    assert!(rt; is_written && empty_is_written, "there is memory");
}

/// Returns true if the metrics were written; else an allocation was refused.
fn are_metrics(rt: &impl Abort, alloc: Global, snapshot: &Snapshot) -> bool {
    match metrics_text(alloc, snapshot) {
        Ok(octets) => {
            has_parts(rt, &octets);
            true
        }
        Err(_) => false,
    }
}

/// Tests that each part is in the text.
fn has_parts(rt: &impl Abort, octets: &[u8]) {
    let Ok(text) = str::from_utf8(octets) else {
        panic!(rt; "no text")
    };
    for part in &METRICS {
        assert!(rt; text.contains(*part), "{part}");
    }
}

/// A name is escaped as labels ask, and what isn't known has no line.
#[test]
fn the_metrics_are_in_prometheus_form(rt: HostRuntime) {
    let is_written = are_metrics(&rt, rt.alloc(), &snapshot());
    assert!(rt; is_written, "there is memory");
}

/// Both texts are made twice: if one allocation fails, at most one of the two calls returns an error.
#[test]
fn each_refused_allocation_of_a_text_is_answered(rt: HostRuntime) {
    one_text_succeeds(&rt, rt.alloc(), &snapshot());
}

/// Tests that at most one of the two calls fails for a snapshot.
fn one_text_succeeds(rt: &impl Abort, alloc: Global, snapshot: &Snapshot) {
    let first = is_state(rt, alloc, snapshot, STATE);
    assert!(rt; is_state(rt, alloc, snapshot, STATE) || first);
    let first = are_metrics(rt, alloc, snapshot);
    assert!(rt; are_metrics(rt, alloc, snapshot) || first);
}
