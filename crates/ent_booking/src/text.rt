//! What the service begins with, and what each client wants.

/// The tables, and the rows that stand in them at first.
pub(crate) const OPENING: &str = "CREATE TABLE Flights (fno INT, dest TEXT);
CREATE TABLE Bookings (who TEXT, fno INT);
CREATE TABLE Seats (seat TEXT, who TEXT);
CREATE TABLE Changes (who TEXT, seat TEXT);
CREATE TABLE Sales (who TEXT, fno INT);
INSERT INTO Flights VALUES (122, 'LA');
INSERT INTO Flights VALUES (123, 'LA');
INSERT INTO Flights VALUES (136, 'Paris');
INSERT INTO Seats VALUES ('12A', 'Ann');
INSERT INTO Seats VALUES ('14C', 'Bob');
INSERT INTO Seats VALUES ('20F', 'Cleo');
";

/// A script that books a flight to LA with a friend, whichever it is. It waits long for the friend.
pub(crate) const MICKEY: &str = "BEGIN TRANSACTION WITHIN 1000 RUNS;
SELECT 'Mickey', fno AS @f INTO ANSWER Flying
  WHERE fno IN (SELECT fno FROM Flights WHERE dest = 'LA') AND ('Minnie', fno) IN ANSWER Flying CHOOSE 1;
INSERT INTO Bookings VALUES ('Mickey', @f);
COMMIT;
";

pub(crate) const MINNIE: &str = "BEGIN TRANSACTION WITHIN 1000 RUNS;
SELECT 'Minnie', fno AS @f INTO ANSWER Flying
  WHERE fno IN (SELECT fno FROM Flights WHERE dest = 'LA') AND ('Mickey', fno) IN ANSWER Flying CHOOSE 1;
INSERT INTO Bookings VALUES ('Minnie', @f);
COMMIT;
";

/// Scripts that trade seats in a ring: each moves only if another one takes the seat that is left.
pub(crate) const ANN: &str = "BEGIN TRANSACTION WITHIN 1000 RUNS;
SELECT 'Ann', seat AS @seat INTO ANSWER Moves
  WHERE seat IN (SELECT seat FROM Seats WHERE who = 'Bob') AND own IN (SELECT seat FROM Seats WHERE who = 'Ann')
    AND ('Cleo', own) IN ANSWER Moves CHOOSE 1;
INSERT INTO Changes VALUES ('Ann', @seat);
COMMIT;
";

pub(crate) const BOB: &str = "BEGIN TRANSACTION WITHIN 1000 RUNS;
SELECT 'Bob', seat AS @seat INTO ANSWER Moves
  WHERE seat IN (SELECT seat FROM Seats WHERE who = 'Cleo') AND own IN (SELECT seat FROM Seats WHERE who = 'Bob')
    AND ('Ann', own) IN ANSWER Moves CHOOSE 1;
INSERT INTO Changes VALUES ('Bob', @seat);
COMMIT;
";

pub(crate) const CLEO: &str = "BEGIN TRANSACTION WITHIN 1000 RUNS;
SELECT 'Cleo', seat AS @seat INTO ANSWER Moves
  WHERE seat IN (SELECT seat FROM Seats WHERE who = 'Ann') AND own IN (SELECT seat FROM Seats WHERE who = 'Cleo')
    AND ('Bob', own) IN ANSWER Moves CHOOSE 1;
INSERT INTO Changes VALUES ('Cleo', @seat);
COMMIT;
";

/// A script whose partner never comes.
pub(crate) const DONALD: &str = "BEGIN TRANSACTION WITHIN 3 RUNS;
SELECT 'Donald', fno AS @f INTO ANSWER Flying
  WHERE fno IN (SELECT fno FROM Flights WHERE dest = 'Paris') AND ('Daisy', fno) IN ANSWER Flying CHOOSE 1;
INSERT INTO Bookings VALUES ('Donald', @f);
COMMIT;
";

/// The script of an ordinary buyer.
pub(crate) const GOOFY: &str = "BEGIN TRANSACTION;
INSERT INTO Sales VALUES ('Goofy', 136);
SELECT fno FROM Sales WHERE who = 'Goofy';
COMMIT;
";
