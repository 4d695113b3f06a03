// Replies that other programs, the standards and counting by hand give, as laws of the definitions.
ghost use Rattle.std.specs.Prelude.{◌≡◌, ◌∷◌, [], Some, None, codes, true, false};
ghost use Rattle.swift_reply.specs.declared.reply.ListingForm.TheVariants as Form;
ghost use Rattle.swift_reply.specs.declared.reply.SwiftReply.TheVariants.{Stored, Shown, Same, Created, Accepted, Done, Listed, Counted, AccountListed, AccountCounted, LetIn};
ghost use Rattle.list_words.specs.declared.row.ListedRow.TheVariants.{Thing, Subdir};
ghost use Rattle.swift_reply.specs.Known.{open_form, closing_form, bodiless_form, november, hello_etag, empty_etag, object_of, row_of, docs_row, front_row, own_counts, foreign_counts, odd_name};
ghost use Rattle.swift_reply.specs.Listings.{json_text, json_account_text, plain_account_text};
ghost use Rattle.swift_reply.specs.Moments.{moment_text};
ghost use Rattle.swift_reply.specs.Replies.{reply_text, continue_text};

const STORED: &[u8] =
    b"HTTP/1.1 201 Created\r\nContent-Length: 0\r\nETag: 5d41402abc4b2a76b9719d911017c592\r\nLast-Modified: Tue, 14 Nov 2023 22:13:20 GMT\r\n\r\n";

const STORED_AND_CLOSED: &[u8] =
    b"HTTP/1.1 201 Created\r\nContent-Length: 0\r\nETag: 5d41402abc4b2a76b9719d911017c592\r\nLast-Modified: Tue, 14 Nov 2023 22:13:20 GMT\r\nConnection: close\r\n\r\n";

const SHOWN: &[u8] =
    b"HTTP/1.1 200 OK\r\nContent-Length: 5\r\nContent-Type: text/plain\r\nETag: 5d41402abc4b2a76b9719d911017c592\r\nLast-Modified: Tue, 14 Nov 2023 22:13:20 GMT\r\nAccept-Ranges: bytes\r\nX-Object-Meta-color: red\r\nX-Object-Meta-size: 9\r\nX-Delete-At: 1700000010\r\n\r\nhello";

const HEAD_OF_SHOWN: &[u8] =
    b"HTTP/1.1 200 OK\r\nContent-Length: 5\r\nContent-Type: text/plain\r\nETag: 5d41402abc4b2a76b9719d911017c592\r\nLast-Modified: Tue, 14 Nov 2023 22:13:20 GMT\r\nAccept-Ranges: bytes\r\nX-Object-Meta-color: red\r\nX-Object-Meta-size: 9\r\nX-Delete-At: 1700000010\r\n\r\n";

const PART: &[u8] =
    b"HTTP/1.1 206 Partial Content\r\nContent-Length: 2\r\nContent-Type: text/plain\r\nETag: 5d41402abc4b2a76b9719d911017c592\r\nLast-Modified: Tue, 14 Nov 2023 22:13:20 GMT\r\nAccept-Ranges: bytes\r\nContent-Range: bytes 15-16/26\r\n\r\npq";

const SAME: &[u8] =
    b"HTTP/1.1 304 Not Modified\r\nETag: 5d41402abc4b2a76b9719d911017c592\r\nLast-Modified: Tue, 14 Nov 2023 22:13:20 GMT\r\n\r\n";

/// The replies to requests for objects.
pub fn objects_are_replied_so()
    ensures stored { reply_text open_form (Stored hello_etag november) [] ≡ STORED.now }
    ensures closed { reply_text closing_form (Stored hello_etag november) [] ≡ STORED_AND_CLOSED.now }
    ensures shown { reply_text open_form (Shown (object_of 5 ((codes "color", codes "red") ∷ (codes "size", codes "9") ∷ []) (Some 1700000010)) None) (codes "hello") ≡ SHOWN.now }
    ensures head { reply_text bodiless_form (Shown (object_of 5 ((codes "color", codes "red") ∷ (codes "size", codes "9") ∷ []) (Some 1700000010)) None) [] ≡ HEAD_OF_SHOWN.now }
    ensures part { reply_text open_form (Shown (object_of 26 [] None) (Some (record { start = 15; count = 2 }))) (codes "pq") ≡ PART.now }
    ensures same { reply_text open_form (Same hello_etag november) [] ≡ SAME.now }
{}

const MADE: &[u8] = b"HTTP/1.1 201 Created\r\nContent-Length: 0\r\n\r\n";

const ACCEPTED: &[u8] = b"HTTP/1.1 202 Accepted\r\nContent-Length: 0\r\n\r\n";

const DONE: &[u8] = b"HTTP/1.1 204 No Content\r\n\r\n";

const COUNTED: &[u8] =
    b"HTTP/1.1 204 No Content\r\nX-Container-Object-Count: 3\r\nX-Container-Bytes-Used: 12\r\nX-Container-Meta-color: red\r\nX-Container-Read: .r:*,acme\r\n\r\n";

const COUNTED_FOR_OTHERS: &[u8] =
    b"HTTP/1.1 204 No Content\r\nX-Container-Object-Count: 3\r\nX-Container-Bytes-Used: 12\r\nX-Container-Meta-color: red\r\n\r\n";

const ACCOUNT_COUNTED: &[u8] =
    b"HTTP/1.1 204 No Content\r\nX-Account-Container-Count: 1\r\nX-Account-Object-Count: 2\r\nX-Account-Bytes-Used: 30\r\n\r\n";

const LET_IN: &[u8] =
    b"HTTP/1.1 204 No Content\r\nX-Storage-Url: http://h/swift/v1/AUTH_acme\r\nX-Auth-Token: AUTH_tk1\r\n\r\n";

const CONTINUE: &[u8] = b"HTTP/1.1 100 Continue\r\n\r\n";

/// The replies to requests for containers, accounts and tokens, and what stands before a body.
pub fn containers_are_replied_so()
    ensures made { reply_text open_form Created [] ≡ MADE.now }
    ensures accepted { reply_text open_form Accepted [] ≡ ACCEPTED.now }
    ensures done { reply_text open_form Done [] ≡ DONE.now }
    ensures counted { reply_text open_form (Counted own_counts) [] ≡ COUNTED.now }
    ensures for_others { reply_text open_form (Counted foreign_counts) [] ≡ COUNTED_FOR_OTHERS.now }
    ensures account { reply_text bodiless_form (AccountCounted 1 2 30) [] ≡ ACCOUNT_COUNTED.now }
    ensures let_in { reply_text open_form (LetIn (codes "h") (codes "acme") (codes "AUTH_tk1")) [] ≡ LET_IN.now }
    ensures waits { continue_text ≡ CONTINUE.now }
{}

const LISTED: &[u8] =
    b"HTTP/1.1 200 OK\r\nContent-Length: 5\r\nContent-Type: text/plain; charset=utf-8\r\n\r\na/\nb\n";

const LISTED_JSON: &[u8] =
    b"HTTP/1.1 200 OK\r\nContent-Length: 139\r\nContent-Type: application/json; charset=utf-8\r\n\r\n[{\"bytes\":5,\"content_type\":\"text/plain\",\"hash\":\"5d41402abc4b2a76b9719d911017c592\",\"last_modified\":\"2023-11-14T22:13:20.000000\",\"name\":\"k\"}]";

const LISTED_NONE: &[u8] =
    b"HTTP/1.1 200 OK\r\nContent-Length: 2\r\nContent-Type: application/json; charset=utf-8\r\n\r\n[]";

const ACCOUNT_LISTED: &[u8] =
    b"HTTP/1.1 200 OK\r\nContent-Length: 37\r\nContent-Type: application/json; charset=utf-8\r\n\r\n[{\"bytes\":5,\"count\":1,\"name\":\"docs\"}]";

/// The replies to requests for listings.
pub fn listings_are_replied_so()
    ensures plain { reply_text open_form (Listed (Subdir (codes "a/") ∷ row_of (codes "b") 1 hello_etag ∷ []) Form.Plain) [] ≡ LISTED.now }
    ensures json { reply_text open_form (Listed (row_of (codes "k") 5 hello_etag ∷ []) Form.Json) [] ≡ LISTED_JSON.now }
    ensures none { reply_text open_form (Listed [] Form.Plain) [] ≡ DONE.now }
    ensures json_none { reply_text open_form (Listed [] Form.Json) [] ≡ LISTED_NONE.now }
    ensures account { reply_text open_form (AccountListed (docs_row ∷ []) Form.Json) [] ≡ ACCOUNT_LISTED.now }
    ensures account_none { reply_text open_form (AccountListed [] Form.Plain) [] ≡ DONE.now }
{}

const EMPTY_ROW: &[u8] =
    b"[{\"bytes\":0,\"content_type\":\"text/plain\",\"hash\":\"d41d8cd98f00b204e9800998ecf8427e\",\"last_modified\":\"2023-11-14T22:13:20.000000\",\"name\":\"k\"}]";

const ODD_ROW: &[u8] = b"[{\"subdir\":\"q\\\"\\\\\\u0001\\b\\t\\n\\f\\r\\u001f\x7f\xc3\xa9\"}]";

const ACCOUNT_ROWS: &[u8] = b"[{\"subdir\":\"a/\"},{\"bytes\":5,\"count\":1,\"name\":\"docs\"}]";

const PLAIN_ACCOUNTS: &[u8] = b"a/\ndocs\n";

/// Rows of listings: of an empty object, of a name with marks and control characters, and of an account.
pub fn rows_are_written_so()
    ensures empty { json_text (row_of (codes "k") 0 empty_etag ∷ []) ≡ EMPTY_ROW.now }
    ensures odd { json_text (Subdir odd_name ∷ []) ≡ ODD_ROW.now }
    ensures accounts { json_account_text (front_row ∷ docs_row ∷ []) ≡ ACCOUNT_ROWS.now }
    ensures plain_accounts { plain_account_text (front_row ∷ docs_row ∷ []) ≡ PLAIN_ACCOUNTS.now }
{}

/// Moments of rows: the first and the last ones, and a leap day.
pub fn moments_are_written_so()
    ensures first { moment_text 0 ≡ codes "1970-01-01T00:00:00.000000" }
    ensures leap { moment_text 951782400000001 ≡ codes "2000-02-29T00:00:00.000001" }
    ensures last { moment_text 253402300799999999 ≡ codes "9999-12-31T23:59:59.999999" }
    ensures later { moment_text 18446744073709551615 ≡ codes "9999-12-31T23:59:59.999999" }
{}
