//! What holds of every session.
ghost use Rattle.station_http.specs.Laws.{OneTalk, FaultsStay, RequestsStay};

/// The same bytes, in any pieces, hold one list of requests and end in one way.
pub fn one_talk()
    ensures { OneTalk }
{}

/// A fault that is found in a front of the bytes is found in all of them, after the same requests.
pub fn faults_stay()
    ensures { FaultsStay }
{}

/// Requests that a front of the bytes begins with are those that all of them begin with.
pub fn requests_stay()
    ensures { RequestsStay }
{}
