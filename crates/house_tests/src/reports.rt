//! What a scanner, the decoder and the outputs are told, in words.
use player_state::{Feed, Report};
use test_texts::Recorder;

/// Adds how frames are fed, and to which of three outputs.
fn add_feed(feed: &Feed, recorder: &mut Recorder) {
    let (first, second, last) = (is_for(feed, 0), is_for(feed, 1), is_for(feed, 8));
    let (cut, volume) = (feed.cut, feed.volume);
    recorder.add(format_args!(
        "feed at cut {cut} and volume {volume} to output 0: {first}, 1: {second}, 8: {last}\n"
    ));
}

/// Whether frames are for this output, which was never moved.
fn is_for(feed: &Feed, output: usize) -> bool {
    matches!(feed.outputs.get(output), Some(Some(0)))
}

/// What is told that has no number.
fn bare_report(report: Report) -> &'static str {
    match report {
        Report::ToDecode(_) => "no job\n",
        Report::ToFeed(_) => "stale\n",
        Report::ToScan(_) => "no scan\n",
        Report::ScanEnded(true) => "ended\n",
        Report::Ended => "the end\n",
        _ => "heard\n",
    }
}

/// Adds what is told to a scanner, the decoder or an output; `heard` where there is nothing to tell. Of a job that
/// is its number, its first frame and its frames.
pub(crate) fn add_observed(report: Report, recorder: &mut Recorder) {
    match report {
        Report::ToDecode(Some(job)) => recorder.add(format_args!(
            "job {} from frame {}: {} frames\n",
            job.number, job.from, job.count
        )),
        Report::ToFeed(Some(feed)) => add_feed(&feed, recorder),
        Report::ToPlay(heard) => recorder.add(format_args!(
            "live at cut {}, enabled {}, paused {}\n",
            heard.live.cut, heard.live.enabled, heard.live.paused
        )),
        Report::ToScan(Some(number)) => recorder.add(format_args!("scan {number}\n")),
        _ => recorder.add(bare_report(report)),
    }
}
