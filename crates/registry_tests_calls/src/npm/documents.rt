//! Documents and whole withdrawals in a turn: what they ask, and what is answered. The first deprecation of
//! each turn is the trial of the right to write.

// Asked with the token of bob, who may write `tool` and `gone`, and read `theirs` and `others`. The
// maintainers are ann and bob, and the revision is the one that `sha256sum` told.
pub(super) const ASKED: &str = r#"# One message for one version.
PUT /tool {"_id":"tool","_rev":"a19ad3ca0a750021e752d6f385405e7e46a195a2a4b27f058a11b88727114031","dist-tags":{"latest":"1.1.0"},"maintainers":[{"email":"","name":"ann"},{"email":"","name":"bob"}],"name":"tool","versions":{"1.0.0":{"deprecated":"old","name":"tool"},"1.1.0":{"name":"tool"}}} => WhoAmI Deprecate Packument Maintainers Deprecate => 200 {"ok":true}
# Two messages.
PUT /tool {"_id":"tool","_rev":"a19ad3ca0a750021e752d6f385405e7e46a195a2a4b27f058a11b88727114031","dist-tags":{"latest":"1.1.0"},"maintainers":[{"email":"","name":"ann"},{"email":"","name":"bob"}],"name":"tool","versions":{"1.0.0":{"deprecated":"old","name":"tool"},"1.1.0":{"deprecated":"new","name":"tool"}}} => WhoAmI Deprecate Packument Maintainers => 400 {"error":"BadBody"}
# One message, of another revision.
PUT /tool {"_id":"tool","_rev":"0a1b","dist-tags":{"latest":"1.1.0"},"maintainers":[{"email":"","name":"ann"},{"email":"","name":"bob"}],"name":"tool","versions":{"1.0.0":{"deprecated":"old","name":"tool"},"1.1.0":{"name":"tool"}}} => WhoAmI Deprecate Packument Maintainers => 409 {"error":"Stale"}
# A withdrawal without a revision in the path.
PUT /tool {"_id":"tool","_rev":"a19ad3ca0a750021e752d6f385405e7e46a195a2a4b27f058a11b88727114031","dist-tags":{"latest":"1.1.0"},"maintainers":[{"email":"","name":"ann"},{"email":"","name":"bob"}],"name":"tool","versions":{"1.1.0":{"name":"tool"}}} => WhoAmI Deprecate Packument Maintainers => 400 {"error":"BadBody"}
# A withdrawal.
PUT /tool/-rev/a19ad3ca0a750021e752d6f385405e7e46a195a2a4b27f058a11b88727114031 {"_id":"tool","_rev":"a19ad3ca0a750021e752d6f385405e7e46a195a2a4b27f058a11b88727114031","dist-tags":{"latest":"1.1.0"},"maintainers":[{"email":"","name":"ann"},{"email":"","name":"bob"}],"name":"tool","versions":{"1.1.0":{"name":"tool"}}} => WhoAmI Deprecate Packument Maintainers Withdraw => 200 {"ok":true}
# A withdrawal under another revision.
PUT /tool/-rev/0a1b {"_id":"tool","_rev":"a19ad3ca0a750021e752d6f385405e7e46a195a2a4b27f058a11b88727114031","dist-tags":{"latest":"1.1.0"},"maintainers":[{"email":"","name":"ann"},{"email":"","name":"bob"}],"name":"tool","versions":{"1.1.0":{"name":"tool"}}} => WhoAmI Deprecate Packument Maintainers => 409 {"error":"Stale"}
# A withdrawal that the registry doesn't find.
PUT /late/-rev/a19ad3ca0a750021e752d6f385405e7e46a195a2a4b27f058a11b88727114031 {"_id":"tool","_rev":"a19ad3ca0a750021e752d6f385405e7e46a195a2a4b27f058a11b88727114031","dist-tags":{"latest":"1.1.0"},"maintainers":[{"email":"","name":"ann"},{"email":"","name":"bob"}],"name":"tool","versions":{"1.1.0":{"name":"tool"}}} => WhoAmI Deprecate Packument Maintainers Withdraw => 409 {"error":"Stale"}
# What is there, from who may write it.
PUT /tool {"_id":"tool","_rev":"a19ad3ca0a750021e752d6f385405e7e46a195a2a4b27f058a11b88727114031","dist-tags":{"latest":"1.1.0"},"maintainers":[{"email":"","name":"ann"},{"email":"","name":"bob"}],"name":"tool","versions":{"1.0.0":{"name":"tool"},"1.1.0":{"name":"tool"}}} => WhoAmI Deprecate Packument Maintainers => 200 {"ok":true}
# What is there, at another revision.
PUT /tool/-rev/0a1b {"_id":"tool","_rev":"0a1b","dist-tags":{"latest":"1.1.0"},"maintainers":[{"email":"","name":"ann"},{"email":"","name":"bob"}],"name":"tool","versions":{"1.0.0":{"name":"tool"},"1.1.0":{"name":"tool"}}} => WhoAmI Deprecate Packument Maintainers => 200 {"ok":true}
# What is there, from who may only read it.
PUT /theirs/-rev/a19ad3ca0a750021e752d6f385405e7e46a195a2a4b27f058a11b88727114031 {"_id":"tool","_rev":"a19ad3ca0a750021e752d6f385405e7e46a195a2a4b27f058a11b88727114031","dist-tags":{"latest":"1.1.0"},"maintainers":[{"email":"","name":"ann"},{"email":"","name":"bob"}],"name":"tool","versions":{"1.0.0":{"name":"tool"},"1.1.0":{"name":"tool"}}} => WhoAmI Deprecate => 403 {"error":"Denied A6"}
# A document of another revision that is far shorter than the packument.
PUT /tool/-rev/0a1b {"_rev":"0a1b","versions":{}} => WhoAmI Deprecate Packument Maintainers => 409 {"error":"Stale"}
# The same from who may only read it.
PUT /theirs/-rev/0a1b {"_rev":"0a1b","versions":{}} => WhoAmI Deprecate => 403 {"error":"Denied A6"}
# Bodies that are no documents, or no publications.
PUT /tool/-rev/0a1b {"_rev": => WhoAmI => 400 {"error":"BadBody"}
PUT /tool [] => WhoAmI => 400 {"error":"BadBody"}
PUT /tool {"_attachments":{}} => WhoAmI => 400 {"error":"BadBody"}
# A publication, and one of another package.
PUT /tool {"_attachments":{"tool-1.1.1.tgz":{"data":"YQ=="}},"name":"tool","versions":{"1.1.1":{"name":"tool","version":"1.1.1"}}} => WhoAmI Publish => 200 {"ok":true}
PUT /late {"_attachments":{"tool-1.1.1.tgz":{"data":"YQ=="}},"name":"tool","versions":{"1.1.1":{"name":"tool","version":"1.1.1"}}} => WhoAmI => 400 {"error":"BadBody"}
# One maintainer more.
PUT /tool/-rev/a19ad3ca0a750021e752d6f385405e7e46a195a2a4b27f058a11b88727114031 {"_id":"tool","_rev":"a19ad3ca0a750021e752d6f385405e7e46a195a2a4b27f058a11b88727114031","maintainers":[{"name":"ann"},{"name":"bob"},{"name":"eve"}]} => WhoAmI Deprecate Packument Maintainers OwnerAdd => 200 {"ok":true}
# One who is no user.
PUT /tool/-rev/a19ad3ca0a750021e752d6f385405e7e46a195a2a4b27f058a11b88727114031 {"_id":"tool","_rev":"a19ad3ca0a750021e752d6f385405e7e46a195a2a4b27f058a11b88727114031","maintainers":[{"name":"ann"},{"name":"bob"},{"name":"zed"}]} => WhoAmI Deprecate Packument Maintainers OwnerAdd => 400 {"error":"BadName"}
# One less.
PUT /tool/-rev/a19ad3ca0a750021e752d6f385405e7e46a195a2a4b27f058a11b88727114031 {"_id":"tool","_rev":"a19ad3ca0a750021e752d6f385405e7e46a195a2a4b27f058a11b88727114031","maintainers":[{"name":"ann"}]} => WhoAmI Deprecate Packument Maintainers OwnerRemove => 200 {"ok":true}
# The same maintainers.
PUT /tool/-rev/a19ad3ca0a750021e752d6f385405e7e46a195a2a4b27f058a11b88727114031 {"_id":"tool","_rev":"a19ad3ca0a750021e752d6f385405e7e46a195a2a4b27f058a11b88727114031","maintainers":[{"name":"bob"},{"name":"ann"}]} => WhoAmI Deprecate Packument Maintainers => 200 {"ok":true}
# The same maintainers, at another revision, and others there.
PUT /tool/-rev/0a1b {"_rev":"0a1b","maintainers":[{"name":"bob"},{"name":"ann"}]} => WhoAmI Deprecate Packument Maintainers => 200 {"ok":true}
PUT /tool/-rev/0a1b {"_rev":"0a1b","maintainers":[{"name":"bob"}]} => WhoAmI Deprecate Packument Maintainers => 409 {"error":"Stale"}
# A whole withdrawal.
DELETE /tool/-rev/a19ad3ca0a750021e752d6f385405e7e46a195a2a4b27f058a11b88727114031 => WhoAmI Deprecate Packument Maintainers WithdrawAll => 200 {"ok":true}
# A whole withdrawal under another revision.
DELETE /tool/-rev/0a1b => WhoAmI Deprecate Packument Maintainers => 409 {"error":"Stale"}
# Where nothing is left, from who may write it.
DELETE /gone/-rev/a19ad3ca0a750021e752d6f385405e7e46a195a2a4b27f058a11b88727114031 => WhoAmI Deprecate Packument => 200 {"ok":true}
# Where nothing is left, from who may only read it.
DELETE /others/-rev/a19ad3ca0a750021e752d6f385405e7e46a195a2a4b27f058a11b88727114031 => WhoAmI Deprecate => 403 {"error":"Denied A6"}
# What the registry doesn't know, or not for this caller.
DELETE /hidden/-rev/a19ad3ca0a750021e752d6f385405e7e46a195a2a4b27f058a11b88727114031 => WhoAmI Deprecate => 409 {"error":"Stale"}"#;
