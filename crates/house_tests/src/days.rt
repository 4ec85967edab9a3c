//! Clients come and go, a scan is asked for, and lists are run.

/// A client waits, another makes a change in a list, and the first goes before it is told. A scan is asked
/// for and fails. Sixty-three more clients come and wait, which is as many as may, and one too many. Two songs
/// are added, of which the first leaves, and the daemon ends, of which the scanner and the decoder are told.
pub(crate) const STEPS: &str = "comes 1
1 idle
comes 2
list 2 setvol 40
show notices
goes 1
show notices
show outbox 1
asks
2 update
asks
scanned
crowd 3 64
comes 65
65 idle
2 setvol 41
show notices
comes 66
66 ping
2 addid a.wav
2 addid b.wav
2 delete 0
show song 1
show song 2
show end
ends
show end
asks
wants
made";

/// What is observed of them. Events: 5 until the first client goes, 4 about the scan, of the crowd 124, 3, 1 and 1, and
/// 6 at the end.
pub(crate) const TELLS: &str = "OK MPD 0.23.0
heard
OK MPD 0.23.0
heard
OK
notices for 1, the first is 1
heard
notices for 0, the first is 0
none
no scan
updating_db: 1
OK
scan 1
ended
OK MPD 0.23.0
heard
OK
notices for 63, the first is 3
heard
Id: 1
OK
Id: 2
OK
OK
no song
b.wav
goes on
ended
the end
the end
events made: 144
";
