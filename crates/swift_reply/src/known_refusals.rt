// Refusals by hand, as laws of the definitions.
ghost use Rattle.std.specs.Prelude.{◌≡◌, ◌∷◌, [], Some, None, codes, true, false};
ghost use Rattle.http_model.specs.Replies.{bad_request_text};
ghost use Rattle.http_model.specs.declared.reply.BadRequest.TheVariants as Word;
ghost use Rattle.swift_reply.specs.declared.reply.Denial.TheVariants as Denied;
ghost use Rattle.swift_reply.specs.declared.reply.Invalid.TheVariants as Bad;
ghost use Rattle.swift_reply.specs.declared.reply.SwiftRefusal.TheVariants as Why;
ghost use Rattle.swift_reply.specs.declared.reply.SwiftReply.TheVariants.{Refused};
ghost use Rattle.swift_reply.specs.declared.reply.TargetKind.TheVariants as Target;
ghost use Rattle.swift_reply.specs.Known.{open_form, closing_form, bodiless_form};
ghost use Rattle.swift_reply.specs.Replies.{reply_text};

const BAD_HEAD: &[u8] =
    b"HTTP/1.1 400 Bad Request\r\nContent-Length: 18\r\nContent-Type: text/plain; charset=utf-8\r\nConnection: close\r\n\r\nBad request: head\n";

const BAD_NAME: &[u8] =
    b"HTTP/1.1 400 Bad Request\r\nContent-Length: 18\r\nContent-Type: text/plain; charset=utf-8\r\n\r\nBad request: name\n";

const BAD_EXPIRY: &[u8] =
    b"HTTP/1.1 400 Bad Request\r\nContent-Length: 20\r\nContent-Type: text/plain; charset=utf-8\r\n\r\nBad request: expiry\n";

const UNAUTHORIZED: &[u8] =
    b"HTTP/1.1 401 Unauthorized\r\nContent-Length: 13\r\nContent-Type: text/plain; charset=utf-8\r\nWWW-Authenticate: Swift realm=\"rgw\"\r\n\r\nUnauthorized\n";

const DENIED: &[u8] =
    b"HTTP/1.1 403 Forbidden\r\nContent-Length: 14\r\nContent-Type: text/plain; charset=utf-8\r\n\r\nDenied: write\n";

const NO_PATH: &[u8] =
    b"HTTP/1.1 404 Not Found\r\nContent-Length: 13\r\nContent-Type: text/plain; charset=utf-8\r\n\r\nNo such path\n";

const HEAD_OF_NO_PATH: &[u8] =
    b"HTTP/1.1 404 Not Found\r\nContent-Length: 13\r\nContent-Type: text/plain; charset=utf-8\r\n\r\n";

const NO_METHOD: &[u8] =
    b"HTTP/1.1 405 Method Not Allowed\r\nContent-Length: 19\r\nContent-Type: text/plain; charset=utf-8\r\nAllow: GET, HEAD, PUT, POST, DELETE\r\n\r\nMethod not allowed\n";

const NOT_EMPTY: &[u8] =
    b"HTTP/1.1 409 Conflict\r\nContent-Length: 15\r\nContent-Type: text/plain; charset=utf-8\r\n\r\nNot empty: a/b\n";

/// Refusals from 400 to 409.
pub fn first_refusals_are_replied_so()
    ensures head { bad_request_text closing_form Word.Head ≡ BAD_HEAD.now }
    ensures name { reply_text open_form (Refused (Why.Invalid Bad.Name)) [] ≡ BAD_NAME.now }
    ensures expiry { reply_text open_form (Refused (Why.Invalid Bad.Expiry)) [] ≡ BAD_EXPIRY.now }
    ensures token { reply_text open_form (Refused Why.Unauthorized) [] ≡ UNAUTHORIZED.now }
    ensures denied { reply_text open_form (Refused (Why.Denied Denied.Write)) [] ≡ DENIED.now }
    ensures path { reply_text open_form (Refused Why.NoPath) [] ≡ NO_PATH.now }
    ensures path_of_head { reply_text bodiless_form (Refused Why.NoPath) [] ≡ HEAD_OF_NO_PATH.now }
    ensures method { reply_text open_form (Refused (Why.NoMethod Target.Container)) [] ≡ NO_METHOD.now }
    ensures not_empty { reply_text open_form (Refused (Why.NotEmpty (codes "a/b"))) [] ≡ NOT_EMPTY.now }
{}

const NO_LENGTH: &[u8] =
    b"HTTP/1.1 411 Length Required\r\nContent-Length: 16\r\nContent-Type: text/plain; charset=utf-8\r\nConnection: close\r\n\r\nLength required\n";

const NOT_MET: &[u8] =
    b"HTTP/1.1 412 Precondition Failed\r\nContent-Length: 20\r\nContent-Type: text/plain; charset=utf-8\r\n\r\nPrecondition failed\n";

const TOO_LARGE: &[u8] =
    b"HTTP/1.1 413 Payload Too Large\r\nContent-Length: 10\r\nContent-Type: text/plain; charset=utf-8\r\nConnection: close\r\n\r\nToo large\n";

const TARGET_TOO_LONG: &[u8] =
    b"HTTP/1.1 414 URI Too Long\r\nContent-Length: 16\r\nContent-Type: text/plain; charset=utf-8\r\n\r\nTarget too long\n";

const NO_RANGE: &[u8] =
    b"HTTP/1.1 416 Range Not Satisfiable\r\nContent-Length: 22\r\nContent-Type: text/plain; charset=utf-8\r\nContent-Range: bytes */26\r\n\r\nRange not satisfiable\n";

const OTHER_ETAG: &[u8] =
    b"HTTP/1.1 422 Unprocessable Entity\r\nContent-Length: 14\r\nContent-Type: text/plain; charset=utf-8\r\n\r\nETag mismatch\n";

const NOT_BUILT: &[u8] =
    b"HTTP/1.1 501 Not Implemented\r\nContent-Length: 10\r\nContent-Type: text/plain; charset=utf-8\r\nConnection: close\r\n\r\nNot built\n";

const BUSY: &[u8] =
    b"HTTP/1.1 503 Service Unavailable\r\nContent-Length: 9\r\nContent-Type: text/plain; charset=utf-8\r\n\r\nBusy: 17\n";

const NO_SPACE: &[u8] =
    b"HTTP/1.1 507 Insufficient Storage\r\nContent-Length: 17\r\nContent-Type: text/plain; charset=utf-8\r\n\r\nNo space: 2 of 5\n";

/// Refusals from 411 to 507.
pub fn later_refusals_are_replied_so()
    ensures length { reply_text closing_form (Refused Why.NoLength) [] ≡ NO_LENGTH.now }
    ensures not_met { reply_text open_form (Refused Why.NotMet) [] ≡ NOT_MET.now }
    ensures large { reply_text closing_form (Refused Why.TooLarge) [] ≡ TOO_LARGE.now }
    ensures target { reply_text open_form (Refused Why.TargetTooLong) [] ≡ TARGET_TOO_LONG.now }
    ensures range { reply_text open_form (Refused (Why.NoRange 26)) [] ≡ NO_RANGE.now }
    ensures etag { reply_text open_form (Refused Why.OtherEtag) [] ≡ OTHER_ETAG.now }
    ensures not_built { reply_text closing_form (Refused Why.NotBuilt) [] ≡ NOT_BUILT.now }
    ensures busy { reply_text open_form (Refused (Why.Busy 17)) [] ≡ BUSY.now }
    ensures space { reply_text open_form (Refused (Why.NoSpace 2 5)) [] ≡ NO_SPACE.now }
{}
